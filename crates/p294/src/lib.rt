// The doors for programs in other languages: each takes numbers and bytes, and answers in numbers. include/p294.h says
// what each number means; `answers` defines it.

#![tactic(auto)]

pub mod answers;
pub mod offered;

ghost use Rattle.std.specs.Prelude.{◌≡◌, [], ◌∷◌, ◌++◌, ◌*◌, length, take};
ghost use Rattle.base_lists.specs.Laid.{stored};
ghost use Rattle.card_field.specs.Reading.{field_reading};
ghost use Rattle.card_put.specs.opening.Opening.{opened_of, opened_card};
ghost use Rattle.card_put.specs.Putting.{answer_of, left_by, putting_of, putting_text_of};
ghost use Rattle.header_check.specs.Refusing.{refusal_of};
ghost use Rattle.media_diskette.specs.Lines.{disk_of, cards_from};
ghost use Rattle.media_diskette.specs.Answers.{to_answer, from_answer, output_by};
ghost use Rattle.tie_rules.specs.Faults.{faults, entries};
ghost use Rattle.tie_check.specs.Answer.{answer_for, list_for};
ghost use Rattle.tie_lookup.specs.questions.Questions.{key_answer};
ghost use Rattle.media_ebcdic.specs.Translating.{ascii_from, ebcdic_from, translated_for};
ghost use Rattle.volume_form.specs.declared.Form.TheVariants.{Old, Wide};
ghost use Rattle.volume_form.specs.Rows.{row_of};
ghost use Rattle.volume_rules.specs.Sound.{headers_of};
ghost use Rattle.volume_rules.specs.Judged.{form_in};
ghost use Rattle.volume_check.specs.Answers.{lines_of, found_of};
ghost use Rattle.volume_edit.specs.Written.{empty_answer, append_answer, left_by as volume_left, convert_answer, compact_answer, compacted_by};
ghost use Rattle.survey_datums.specs.Answer.{routes_of};
ghost use Rattle.survey_datums.specs.Listing.{listed_of, list_for as routes_in};
ghost use Rattle.base_value.specs.Sums.{decimal};
ghost use Rattle.survey_compass.specs.Headings.{heading_of};
ghost use Rattle.p294.specs.offered.Offers.{offered_of, key_of, key_text_of};
ghost use Rattle.p294.specs.answers.Replies.{field_reply, text_reply, entered_reply, counted_reply, key_reply, line_reply, heading_reply};
ghost use Rattle.p294.specs.Given.{given};

use crate::answers::Reply;
use base_value::Decimal;
use card_put::opening;

// How many numbers go with an answer.
const NUMBERS: usize = 3;

// Gives an answer: its numbers into a lent list that has room for them, and what it says.
fn give(numbers: &mut [i64], reply: Reply) -> i64
    ensures said { result ≡ reply.said }
    ensures numbers { numbers.new ≡ given numbers.old reply }
{
    let said = reply.said;
    if numbers.len() < NUMBERS {
        return said;
    }
    let first = reply.first;
    let second = reply.second;
    let third = reply.third;
    numbers[0] = first;
    numbers[1] = second;
    numbers[2] = third;
    said
}

// What stands in a field, as numbers: both readers call it, so that all of the reading is compiled into it. The card is handed
// on as a part of itself: a slice that is passed on as it came is copied as one, which has to wait until both halves are stored.
fn reading(card: &[u8], number: usize, form: usize) -> Reply
    ensures { result ≡ field_reply (field_reading card.now number form) }
{
    let columns = card.len();
    answers::of_field(card_field::read_field(&card[..columns], number, form))
}

// What stands in the field with a number, its coordinates in the form that is given.
#[unsafe(no_mangle)]
pub extern "C" fn p294_read_field(
    card: &[u8],
    number: usize,
    form: usize,
    numbers: &mut [i64],
) -> i64
    ensures said { result ≡ (field_reply (field_reading card.now number form)).said }
    ensures numbers { numbers.new
        ≡ given numbers.old (field_reply (field_reading card.now number form)) }
{
    give(numbers, reading(card, number, form))
}

// The columns of the text in the field with a number.
#[unsafe(no_mangle)]
pub extern "C" fn p294_read_text(
    card: &[u8],
    number: usize,
    form: usize,
    numbers: &mut [i64],
) -> i64
    ensures said { result ≡ (text_reply (field_reading card.now number form)).said }
    ensures numbers { numbers.new
        ≡ given numbers.old (text_reply (field_reading card.now number form)) }
{
    give(numbers, answers::of_text(reading(card, number, form)))
}

// A new card of a code.
#[unsafe(no_mangle)]
pub extern "C" fn p294_open(card: &mut [u8], code: &[u8], numbers: &mut [i64]) -> i64
    ensures said { result ≡ (entered_reply (opened_of code.now (length card.old))).said }
    ensures numbers { numbers.new
        ≡ given numbers.old (entered_reply (opened_of code.now (length card.old))) }
    ensures card { card.new ≡ opened_card code.now card.old }
{
    let reply = answers::of_entered(opening::open(card, code));
    give(numbers, reply)
}

// Puts a value, offered as its kind and three numbers, into the field with a number.
#[unsafe(no_mangle)]
pub extern "C" fn p294_put(
    card: &mut [u8],
    number: usize,
    form: usize,
    kind: usize,
    a: i64,
    b: usize,
    c: usize,
    numbers: &mut [i64],
) -> i64
    ensures said { result
        ≡ (entered_reply (answer_of (putting_of card.old number form (offered_of kind a b c)))).said }
    ensures numbers { numbers.new
        ≡ given numbers.old (entered_reply (answer_of (putting_of card.old number form (offered_of kind a b c)))) }
    ensures card { card.new
        ≡ left_by (putting_of card.old number form (offered_of kind a b c)) card.old }
{
    let value = offered::offered(kind, a, b, c);
    let reply = answers::of_entered(card_put::put(card, number, form, value));
    give(numbers, reply)
}

// Puts a text into the field with a number.
#[unsafe(no_mangle)]
pub extern "C" fn p294_put_text(
    card: &mut [u8],
    number: usize,
    form: usize,
    text: &[u8],
    numbers: &mut [i64],
) -> i64
    ensures said { result
        ≡ (entered_reply (answer_of (putting_text_of card.old number form text.now))).said }
    ensures numbers { numbers.new
        ≡ given numbers.old (entered_reply (answer_of (putting_text_of card.old number form text.now))) }
    ensures card { card.new
        ≡ left_by (putting_text_of card.old number form text.now) card.old }
{
    let reply = answers::of_entered(card_put::put_text(card, number, form, text));
    give(numbers, reply)
}

// The number of all faults of a header, with their entries in the list as far as they fit; or its refusal.
#[unsafe(no_mangle)]
pub extern "C" fn p294_check(header: &[u8], list: &mut [u32], numbers: &mut [i64]) -> i64
    ensures said { result
        ≡ (counted_reply (answer_for (refusal_of header.now) (length (faults header.now)))).said }
    ensures numbers { numbers.new
        ≡ given numbers.old (counted_reply (answer_for (refusal_of header.now) (length (faults header.now)))) }
    ensures list { list.new
        ≡ list_for (refusal_of header.now) list.old (entries header.now) }
{
    let reply = answers::of_counted(tie_check::check(header, list));
    give(numbers, reply)
}

// What a header says of a key of a class, offered as its kind with two numbers or a text.
#[unsafe(no_mangle)]
pub extern "C" fn p294_key(
    header: &[u8],
    class: u64,
    kind: usize,
    a: i64,
    b: i64,
    text: &[u8],
    numbers: &mut [i64],
) -> i64
    ensures said { result
        ≡ (key_reply (key_answer header.now class (key_of kind a b) (key_text_of kind text.now))).said }
    ensures numbers { numbers.new
        ≡ given numbers.old (key_reply (key_answer header.now class (key_of kind a b) (key_text_of kind text.now))) }
{
    let key = offered::key_of(kind, a, b);
    let bytes = offered::key_text(kind, text);
    let reply = answers::of_key(tie_lookup::find_key(header, class, key, bytes));
    give(numbers, reply)
}

// A header as a diskette file, in the lent output.
#[unsafe(no_mangle)]
pub extern "C" fn p294_to_disk(header: &[u8], out: &mut [u8], numbers: &mut [i64]) -> i64
    ensures said { result ≡ (counted_reply (to_answer header.now (length out.old))).said }
    ensures numbers { numbers.new
        ≡ given numbers.old (counted_reply (to_answer header.now (length out.old))) }
    ensures out { out.new
        ≡ output_by (to_answer header.now (length out.old)) (disk_of header.now) out.old }
{
    let reply = answers::of_counted(media_diskette::to_diskette(header, out));
    give(numbers, reply)
}

// A diskette file as a header, in the lent output.
#[unsafe(no_mangle)]
pub extern "C" fn p294_from_disk(file: &[u8], out: &mut [u8], numbers: &mut [i64]) -> i64
    ensures said { result ≡ (counted_reply (from_answer file.now (length out.old))).said }
    ensures numbers { numbers.new
        ≡ given numbers.old (counted_reply (from_answer file.now (length out.old))) }
    ensures out { out.new
        ≡ output_by (from_answer file.now (length out.old)) (cards_from file.now) out.old }
{
    let reply = answers::of_counted(media_diskette::from_diskette(file, out));
    give(numbers, reply)
}

// A tape in EBCDIC, translated to ASCII into an output.
#[unsafe(no_mangle)]
pub extern "C" fn p294_from_ebcdic(tape: &[u8], out: &mut [u8], numbers: &mut [i64]) -> i64
    ensures said { result
        ≡ (counted_reply (translated_for (length tape.now) (length out.old))).said }
    ensures numbers { numbers.new
        ≡ given numbers.old (counted_reply (translated_for (length tape.now) (length out.old))) }
    ensures out { out.new ≡ stored out.old 0 (ascii_from tape.now) }
{
    let reply = answers::of_counted(media_ebcdic::to_ascii(tape, out));
    give(numbers, reply)
}

// A text in ASCII, translated to EBCDIC into an output.
#[unsafe(no_mangle)]
pub extern "C" fn p294_to_ebcdic(text: &[u8], out: &mut [u8], numbers: &mut [i64]) -> i64
    ensures said { result
        ≡ (counted_reply (translated_for (length text.now) (length out.old))).said }
    ensures numbers { numbers.new
        ≡ given numbers.old (counted_reply (translated_for (length text.now) (length out.old))) }
    ensures out { out.new ≡ stored out.old 0 (ebcdic_from text.now) }
{
    let reply = answers::of_counted(media_ebcdic::to_ebcdic(text, out));
    give(numbers, reply)
}

// The empty volume, laid into a buffer.
#[unsafe(no_mangle)]
pub extern "C" fn p294_volume_empty(buffer: &mut [u8], numbers: &mut [i64]) -> i64
    ensures said { result ≡ (counted_reply (empty_answer buffer.old)).said }
    ensures numbers { numbers.new ≡ given numbers.old (counted_reply (empty_answer buffer.old)) }
    ensures buffer { buffer.new ≡ volume_left (row_of Old) (empty_answer buffer.old) [] buffer.old }
{
    let reply = answers::of_counted(volume_edit::lay_empty(buffer));
    give(numbers, reply)
}

// How many lines a volume has.
#[unsafe(no_mangle)]
pub extern "C" fn p294_volume_lines(volume: &[u8], cards: usize, numbers: &mut [i64]) -> i64
    ensures said { result ≡ (counted_reply (lines_of (row_of (form_in cards volume.now)) cards volume.now)).said }
    ensures numbers { numbers.new
        ≡ given numbers.old (counted_reply (lines_of (row_of (form_in cards volume.now)) cards volume.now)) }
{
    give(
        numbers,
        answers::of_counted(volume_check::lines(volume, cards)),
    )
}

// Where the line at a place of a volume stands.
#[unsafe(no_mangle)]
pub extern "C" fn p294_volume_line(
    volume: &[u8],
    cards: usize,
    place: usize,
    numbers: &mut [i64],
) -> i64
    ensures said { result ≡ (line_reply (found_of (row_of (form_in cards volume.now)) cards volume.now place)).said }
    ensures numbers { numbers.new
        ≡ given numbers.old (line_reply (found_of (row_of (form_in cards volume.now)) cards volume.now place)) }
{
    give(
        numbers,
        answers::of_line(volume_check::find_line(volume, cards, place)),
    )
}

// A header appended to a volume.
#[unsafe(no_mangle)]
pub extern "C" fn p294_volume_append(
    buffer: &mut [u8],
    cards: usize,
    header: &[u8],
    numbers: &mut [i64],
) -> i64
    ensures said { result ≡ (counted_reply (append_answer (row_of (form_in cards buffer.old)) cards buffer.old header.now)).said }
    ensures numbers { numbers.new
        ≡ given numbers.old (counted_reply (append_answer (row_of (form_in cards buffer.old)) cards buffer.old header.now)) }
    ensures buffer { buffer.new
        ≡ volume_left (row_of (form_in cards buffer.old)) (append_answer (row_of (form_in cards buffer.old)) cards buffer.old header.now)
        (headers_of (row_of (form_in cards buffer.old)) cards (take (80 * cards) buffer.old) ++ (header.now ∷ [])) buffer.old }
{
    let reply = answers::of_counted(volume_edit::append(buffer, cards, header));
    give(numbers, reply)
}

// The routes of a header's datums to datum 1, nine numbers to a datum in the list as far as they fit; or the refusal.
#[unsafe(no_mangle)]
pub extern "C" fn p294_routes(header: &[u8], list: &mut [u32], numbers: &mut [i64]) -> i64
    ensures said { result ≡ (counted_reply (listed_of (routes_of header.now))).said }
    ensures numbers { numbers.new
        ≡ given numbers.old (counted_reply (listed_of (routes_of header.now))) }
    ensures list { list.new ≡ routes_in (routes_of header.now) list.old }
{
    let reply = answers::of_counted(survey_datums::listing::list_routes(header, list));
    give(numbers, reply)
}

// The corrected heading of the compass with a serial, by a raw reading of units with places and the direction of the line.
#[unsafe(no_mangle)]
pub extern "C" fn p294_heading(
    header: &[u8],
    serial: &[u8],
    raw: i64,
    places: usize,
    direction: i64,
    numbers: &mut [i64],
) -> i64
    ensures said { result
        ≡ (heading_reply (heading_of header.now serial.now (decimal raw places) direction)).said }
    ensures numbers { numbers.new
        ≡ given numbers.old (heading_reply (heading_of header.now serial.now (decimal raw places) direction)) }
{
    let heading = survey_compass::find_heading(
        header,
        serial,
        Decimal::new(raw, places),
        direction,
    );
    give(numbers, answers::of_heading(heading))
}

// A volume brought into the wide form.
#[unsafe(no_mangle)]
pub extern "C" fn p294_volume_widen(buffer: &mut [u8], cards: usize, numbers: &mut [i64]) -> i64
    ensures said { result ≡ (counted_reply (convert_answer (row_of (form_in cards buffer.old)) (row_of Wide) cards buffer.old)).said }
    ensures numbers { numbers.new ≡ given numbers.old (counted_reply (convert_answer (row_of (form_in cards buffer.old)) (row_of Wide) cards buffer.old)) }
    ensures buffer { buffer.new
        ≡ volume_left (row_of Wide) (convert_answer (row_of (form_in cards buffer.old)) (row_of Wide) cards buffer.old)
        (headers_of (row_of (form_in cards buffer.old)) cards (take (80 * cards) buffer.old)) buffer.old }
{
    let reply = answers::of_counted(volume_edit::convert::widen(buffer, cards));
    give(numbers, reply)
}

// A volume brought into the old form.
#[unsafe(no_mangle)]
pub extern "C" fn p294_volume_narrow(buffer: &mut [u8], cards: usize, numbers: &mut [i64]) -> i64
    ensures said { result ≡ (counted_reply (convert_answer (row_of (form_in cards buffer.old)) (row_of Old) cards buffer.old)).said }
    ensures numbers { numbers.new ≡ given numbers.old (counted_reply (convert_answer (row_of (form_in cards buffer.old)) (row_of Old) cards buffer.old)) }
    ensures buffer { buffer.new
        ≡ volume_left (row_of Old) (convert_answer (row_of (form_in cards buffer.old)) (row_of Old) cards buffer.old)
        (headers_of (row_of (form_in cards buffer.old)) cards (take (80 * cards) buffer.old)) buffer.old }
{
    let reply = answers::of_counted(volume_edit::convert::narrow(buffer, cards));
    give(numbers, reply)
}

// A volume without the lines that are superseded.
#[unsafe(no_mangle)]
pub extern "C" fn p294_volume_compact(buffer: &mut [u8], cards: usize, numbers: &mut [i64]) -> i64
    ensures said { result ≡ (counted_reply (compact_answer (row_of (form_in cards buffer.old)) cards buffer.old)).said }
    ensures numbers { numbers.new ≡ given numbers.old (counted_reply (compact_answer (row_of (form_in cards buffer.old)) cards buffer.old)) }
    ensures buffer { buffer.new
        ≡ compacted_by (row_of (form_in cards buffer.old)) (compact_answer (row_of (form_in cards buffer.old)) cards buffer.old)
        (headers_of (row_of (form_in cards buffer.old)) cards (take (80 * cards) buffer.old)) buffer.old }
{
    let reply = answers::of_counted(volume_edit::compact::compact(buffer, cards));
    give(numbers, reply)
}
