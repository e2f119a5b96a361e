// Answers a script of commands line by line; the answers asked for are written down in advance.
#![tactic(auto)]

mod fields;

fn main(rt: HostRuntime) {
    let to = rt.stdout();
    test_script::answer_script(rt.stdin(), to, |line| fields::answer(to, line))
}
