// The text of an order, put into a buffer that the caller provides: the count of functions, and for each a line with its new number, its source number and its
// name.
#![tactic(auto)]

ghost use Rattle.std.specs.Prelude.{◌≡◌, ◌+◌, ◌≤◌, ◌<◌, length};
ghost use Rattle.order_lines.specs.Lines.{decimal, numbers_text, line_text, lines_text, headed, ordered_text, name_at, name_is, text_at, TextEnsures, Room, Readable, Line, Lines, Text};

use base_words::Words;

// The digit of a number below 10.
fn digit(d: usize) -> u8
    requires { d < 10 }
    ensures { result ≡ 48 + d }
{
    b'0' + d as u8
}

// Where the name of table function s is. It has one, as `Readable` says, so that its word is 1 at least; after `checked_sub(1)` there would be a case that never is.
fn name_of(words: &Words, s: usize) -> usize
    requires { Readable words.now s }
    ensures { result ≡ name_at words.now s }
{
    let f = base_views::start_of(words, base_views::FUNCTIONS, s);
    let w = words[f] as usize;
    base_views::start_of(words, base_views::NAMES, w - 1)
}

// A place in a buffer up to which the text is put.
#[derive(Drop)]
struct Cursor<'a> {
    out: &'a mut [u8; 65536],
    at: usize,
    ghost long: { length out.now ≡ 65536 },
}

impl Cursor<'_> {
    ghost use Rattle.order_lines.specs.Cursors.{Puts, SameBuffer};

    // Puts these bytes.
    fn put(&mut self, text: &[u8])
        requires { self.old.at + length text.now ≤ 65536 }
        ensures puts { Puts self.old text.now self.new }
        ensures same { SameBuffer self.old self.new }
    {
        let at = self.at;
        let end = at + text.len();
        let out = &mut *self.out;
        out[at..end].copy_from_slice(text);
        self.at = end;
    }

    // Puts a number below 1,000, as those of functions are. (`write!` promises its bytes only where it ends with `Ok`, and no clause says when it does.)
    fn put_number(&mut self, x: usize)
        requires { (self.old.at + 3 ≤ 65536) × (x < 1000) }
        ensures puts { Puts self.old (decimal x) self.new }
        ensures same { SameBuffer self.old self.new }
    {
        let digits = [digit(x / 100), digit(x / 10 % 10), digit(x % 10)];
        let zeros = usize::from(x < 10) + usize::from(x < 100);
        self.put(&digits[zeros..]);
    }

    // Puts the bytes of the name at p.
    fn put_name(&mut self, words: &Words, p: usize)
        requires { Room words.now p self.old.at }
        ensures puts { Puts self.old (text_at words.now p) self.new }
        ensures same { SameBuffer self.old self.new }
    {
        let at = self.at;
        let end = at + words[p] as usize;
        let out = &mut *self.out;
        let name = &mut out[at..end];
        for (k, byte) in name.iter_mut().enumerate() {
            *byte = words[p + 1 + k / 4].to_le_bytes()[k % 4];
        }
        self.at = end;
    }

    // Puts two numbers, each with a space after it.
    fn put_numbers(&mut self, new: usize, s: usize)
        requires room { self.old.at + length (numbers_text new s) < 65536 }
        requires bound { (new < 1000) × (s < 1000) }
        ensures puts { Puts self.old (numbers_text new s) self.new }
        ensures same { SameBuffer self.old self.new }
    {
        self.put_number(new);
        self.put(b" ");
        self.put_number(s);
        self.put(b" ");
    }

    // Puts the line of table function s.
    fn put_line(&mut self, words: &Words, new: usize, s: usize)
        requires { Line words.now new s self.old.at }
        ensures puts { Puts self.old (line_text new s (name_is words.now s)) self.new }
        ensures same { SameBuffer self.old self.new }
    {
        self.put_numbers(new, s);
        self.put_name(words, name_of(words, s));
        self.put(b"\n");
    }

    // Puts the lines of an order.
    fn put_lines(&mut self, words: &Words, order: &[u32])
        requires { Lines words.now order.now self.old.at }
        ensures puts { Puts self.old (lines_text order.now 0 (name_is words.now)) self.new }
        ensures same { SameBuffer self.old self.new }
    {
        for (k, s) in order.iter().enumerate() {
            self.put_line(words, k, *s as usize);
        }
    }

    // Puts a first line: words, a number, and the end of the line.
    fn put_head(&mut self, label: &[u8], x: usize)
        requires room { self.old.at + 20 ≤ 65536 }
        requires label_len_bound { (length label.now ≤ 16) × (x < 1000) }
        ensures puts { Puts self.old (headed label.now x) self.new }
        ensures same { SameBuffer self.old self.new }
    {
        self.put(label);
        self.put_number(x);
        self.put(b"\n");
    }
}

// Puts a first line at the start of `out`: how many bytes it has.
pub fn head(label: &[u8], x: usize, out: &mut [u8; 65536]) -> usize
    requires out_len { length out.old ≡ 65536 }
    requires label_len_bound { (length label.now ≤ 16) × (x < 1000) }
    ensures { TextEnsures out.old 0 (headed label.now x) out.new result }
{
    let mut cursor = Cursor { out, at: 0 };
    cursor.put_head(label, x);
    cursor.at
}

// Puts the text of an order at the start of `out`: how many bytes it has.
pub fn text(words: &Words, order: &[u32], out: &mut [u8; 65536]) -> usize
    requires { Text words.now order.now out.old }
    ensures { TextEnsures out.old 0 (ordered_text order.now (name_is words.now)) out.new result }
{
    let mut cursor = Cursor { out, at: 0 };
    cursor.put_head(b"functions ", order.len());
    cursor.put_lines(words, order);
    cursor.at
}
