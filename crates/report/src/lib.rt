//! What `routes` prints, written into a lent buffer.
#![tactic(auto)]

ghost use Rattle.std.specs.Prelude.{◌≡◌, [], ◌∷◌, ◌++◌, map, ◌+◌, ◌*◌, ◌≤◌, ◌<◌, length};
ghost use Rattle.rules.specs.Answers.{judged, issued};
ghost use Rattle.rules.specs.Table.{house};
ghost use Rattle.rules.specs.Promise.{Judged};
ghost use Rattle.rules.specs.Print.{digit, decimal, hex, spaced, ended, bad_field_text};
ghost use Rattle.rules.specs.Text.{Reported};
ghost use Rattle.rules.specs.RunPair.{issue_answer, issue_memory};
ghost use Rattle.rules.specs.RunFields.{pair_line};
ghost use Rattle.rules.specs.RunText.{good_text};
ghost use Rattle.report.specs.Put.{Puts, Room, spaced_number, spaced_numbers, Ready};

use fields::{Ends, pair, read};
use header::issue_pair;
use rules::{IssuedHeader, Refusal};
use wiring::judge;

/// A text at the start of a lent buffer: its first `len` bytes. The memory is lent and nothing may allocate, so it is no `String`.
#[derive(Drop)]
struct Text<'a> {
    out: &'a mut [u8],
    len: usize,
}

/// Writes the text for an input at the start of out and gives its length; where out has no room for every text, it writes none and gives 0.
pub fn report(input: &[u8], out: &mut [u8]) -> usize
    ensures { Reported house input.now out.old result out.new }
{
    // 0 and no Option: `Reported`, which it promises, names it, and what could not fail still can't.
    if out.len() < 524288 {
        return 0;
    }
    let mut text = Text { out, len: 0 };
    if input.len() > 65536 {
        text.put(b"input too long\n");
        return text.len;
    }
    // Nothing may allocate: the table is as long as any, and lent on as far as it is filled.
    let mut table = [0; 512];
    let fields = match read(input, &mut table) {
        Ok(fields) => fields,
        Err(refusal) => {
            text.put_bad_field(refusal.place());
            return text.len;
        }
    };
    let entries = 8 * fields.switches as usize;
    text.put_lines(&table[..entries], input, fields.pairs);
    text.len
}

/// Header issue in a table that has been judged so. `Judged` speaks of the table and of the judgement, which the lines of one input share: a
/// type of both for this and `put_line` is no plainer.
fn issue_judged(
    table: &[u16],
    judgement: Result<(), Refusal>,
    source: u64,
    target: u64,
    words: &mut [u8],
) -> Result<IssuedHeader, Refusal>
    requires { Judged house table.now (judged judgement) }
    ensures answer { issued result ≡ issue_answer house table.now source target words.old }
    ensures memory { words.new ≡ issue_memory house table.now source target words.old }
{
    judgement?;
    issue_pair(table, source, target, words)
}

/// Numbers are written digit by digit: of `write!` no clause says that it writes the whole text where there is room, and `Reported` promises it.
/// Each method asks for its own room and puts its own text.
impl<'a> Text<'a> {
    fn put_bad_field(&mut self, place: usize)
        requires { (self.old.len ≡ 0) × (524288 ≤ length self.old.out.now) }
        ensures { Puts (bad_field_text place) self.old self.new }
    {
        self.put(b"bad field at ");
        self.put_decimal(place as u64);
        self.put_byte(b'\n');
    }

    /// The heading, and a line for each pair from the offset `from` on.
    fn put_lines(&mut self, table: &[u16], input: &[u8], from: usize)
        requires { (self.old.len ≡ 0) × Ready input.now table.now from × (524288 ≤ length self.old.out.now) }
        ensures { Puts (good_text house input.now) self.old self.new }
    {
        let judgement = judge(table);
        let pairs = (input.len() - from) / 7;
        self.put(b"src dst ans dist count tries words\n");
        for i in 0..pairs {
            self.put_line(table, judgement, pair(input, from + 7 * i));
        }
    }

    /// The line of a pair in a table that has been judged so.
    fn put_line(&mut self, table: &[u16], judgement: Result<(), Refusal>, ends: Ends)
        requires { Judged house table.now (judged judgement) × Room 55 self.old }
        ensures put { Puts (pair_line house table.now ends.source ends.target) self.old self.new }
        ensures short { self.new.len ≤ self.old.len + 55 }
    {
        let source = ends.source as u64;
        let target = ends.target as u64;
        let mut words = [0; 8];
        match issue_judged(table, judgement, source, target, &mut words) {
            Ok(header) => {
                let distance = header.distance as u64;
                let count = header.count as u64;
                let tries = header.tries as u64;
                self.put_numbers([source, target, 0, distance, count, tries]);
                self.put_words(&words[..header.distance as usize]);
            }
            Err(refusal) => {
                let number = refusal.number() as u64;
                self.put_numbers([source, target, number, 0, 0, 0]);
                self.put(b"-\n");
            }
        }
    }

    /// Six numbers, a space behind each.
    fn put_numbers(&mut self, numbers: [u64; 6])
        requires { Room (length (spaced_numbers numbers)) self.old }
        ensures { Puts (spaced_numbers numbers) self.old self.new }
    {
        for n in numbers {
            self.put_number(n);
        }
    }

    /// A number and a space.
    fn put_number(&mut self, n: u64)
        requires { Room (length (spaced_number n)) self.old }
        ensures { Puts (spaced_number n) self.old self.new }
    {
        self.put_decimal(n);
        self.put_byte(b' ');
    }

    fn put_decimal(&mut self, n: u64)
        requires { Room (length (decimal n)) self.old }
        ensures { Puts (decimal n) self.old self.new }
    {
        if n < 10 {
            self.put_byte(digit(n as u8));
        } else {
            self.put_decimal(n / 10);
            self.put_byte(digit((n % 10) as u8));
        }
    }

    /// Words, a space between them and a line feed behind the last.
    fn put_words(&mut self, words: &[u8])
        requires { (1 ≤ length words.now) × Room (3 * length words.now) self.old }
        ensures { Puts (ended (spaced (map hex words.now))) self.old self.new }
    {
        let n = words.len() - 1;
        for w in &words[..n] {
            self.put_word(*w, b' ');
        }
        self.put_word(words[n], b'\n');
    }

    /// A word in two capital hexadecimal digits, and what stands behind it.
    fn put_word(&mut self, w: u8, behind: u8)
        requires { Room 3 self.old }
        ensures { Puts (hex w ++ (behind ∷ [])) self.old self.new }
    {
        self.put_byte(digit(w / 16));
        self.put_byte(digit(w % 16));
        self.put_byte(behind);
    }

    fn put_byte(&mut self, byte: u8)
        requires { Room 1 self.old }
        ensures { Puts (byte ∷ []) self.old self.new }
    {
        self.out[self.len] = byte;
        self.len += 1;
    }

    fn put(&mut self, text: &[u8])
        requires { Room (length text.now) self.old }
        ensures { Puts text.now self.old self.new }
    {
        let end = self.len + text.len();
        self.out[self.len..end].copy_from_slice(text);
        self.len = end;
    }
}

/// A digit below 16, the letters as capitals. Written out for `Text`, which says why.
#[tactic(auto, unfolding(rules::specs::Print::digit))]
fn digit(x: u8) -> u8
    requires { x < 16 }
    ensures { result ≡ digit x }
{
    if x < 10 {
        return b'0' + x;
    }
    b'A' + (x - 10)
}
