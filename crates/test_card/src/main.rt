// Answers a script of commands on cards line by line; the answers asked for are written down in advance.
#![tactic(auto)]

mod cards;

fn main(rt: HostRuntime) {
    let to = rt.stdout();
    test_script::answer_script(rt.stdin(), to, |line| cards::answer(to, line))
}
