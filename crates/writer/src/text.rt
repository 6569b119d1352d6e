// A text on its way into a lent output.
ghost use Rattle.std.specs.Prelude.{◌≡◌, [], ◌∷◌, ◌++◌, ◌+◌, ◌-◌, ◌%◌, ◌≤◌, length, take, drop, replicate};
ghost use Rattle.base_64.specs.Groups.{encode};
ghost use Rattle.grammar.specs.LineEnds.{line_end};
ghost use Rattle.grammar.specs.Grammars.{line_chars};
ghost use Rattle.writing.specs.Text.{in_lines, written_lines};
ghost use Rattle.writing.proofs.Progress.{group_chars, WholeGroups, line_break, room_then, group_text, boundary_line};
ghost use Rattle.writer.specs.Steps.{HasRoom, Puts, PutsLines};

use crate::line;
use crate::tables::ValuesTable;
use base_64::{EncodeTable, GROUP_BYTES, GROUP_CHARS};
use grammar::{CR, HYPHENS, LF, LINE_BYTES, LINE_CHARS, LineEnding};

// From so many bytes on full lines go by the table: for fewer it takes longer than it spares.
const TABLE_BYTES: usize = 4 * LINE_BYTES;

// How many bytes of the data are full lines that go by the table.
fn full_bytes(content: usize) -> usize
    ensures { (result % 48 ≡ 0) × (result ≤ content) }
{
    if content < TABLE_BYTES {
        return 0;
    }
    content - content % LINE_BYTES
}

// What is written so far ends at `at`. A line of data has room for `room` more characters.
#[derive(Drop)]
pub struct TextWriter<'a> {
    out: &'a mut [u8],
    at: usize,
    room: usize,
    ending: LineEnding,
}

impl<'a> TextWriter<'a> {
    pub fn new(out: &'a mut [u8], ending: LineEnding) -> TextWriter<'a>
        ensures lent { result.out.ghost_name ≡ out.entry.ghost_name }
        ensures kept { result.out.now ≡ out.old }
        ensures start { (result.at ≡ 0) × (result.ending ≡ ending) }
    {
        TextWriter {
            out,
            at: 0,
            room: LINE_CHARS,
            ending,
        }
    }

    // Copies bytes, one by one: a copy of any length would be a call of C's `memmove`, which the archive asks nobody for.
    fn put_bytes(&mut self, bytes: &[u8])
        requires { HasRoom self.old bytes.now }
        ensures { Puts self.old bytes.now self.new × (self.new.room ≡ self.old.room) }
    {
        for byte in bytes {
            self.put_byte(*byte);
        }
    }

    fn put_byte(&mut self, c: u8)
        requires { HasRoom self.old (c ∷ []) }
        ensures { Puts self.old (c ∷ []) self.new × (self.new.room ≡ self.old.room) }
    {
        self.out[self.at] = c;
        self.at += 1;
    }

    // Writes a line end.
    fn put_end(&mut self)
        requires { HasRoom self.old (line_end self.old.ending) }
        ensures { Puts self.old (line_end self.old.ending) self.new }
    {
        match self.ending {
            LineEnding::Lf => self.put_byte(LF),
            LineEnding::CrLf => {
                self.put_byte(CR);
                self.put_byte(LF);
            }
            LineEnding::Cr => self.put_byte(CR),
        }
    }

    // Writes a boundary and its line end.
    pub fn put_boundary(&mut self, word: &[u8], label: &[u8])
        requires { HasRoom self.old (boundary_line self.old.ending word.now label.now) }
        ensures { Puts self.old (boundary_line self.old.ending word.now label.now) self.new }
    {
        self.put_bytes(word);
        self.put_bytes(label);
        self.put_bytes(&HYPHENS);
        self.put_end();
    }

    // Before a further character: a full line ends, and another begins.
    fn break_line(&mut self)
        requires { HasRoom self.old (line_break self.old.ending self.old.room) }
        ensures { Puts self.old (line_break self.old.ending self.old.room) self.new × (self.new.room ≡ room_then self.old.room) }
    {
        if self.room == 0 {
            self.put_end();
            self.room = LINE_CHARS;
        }
    }

    // Writes a group of characters, on a new line where the line is full.
    fn put_group(&mut self, group: [u8; 4])
        requires { WholeGroups self.old.room × HasRoom self.old (group_text self.old.ending self.old.room group) }
        ensures { Puts self.old (group_text self.old.ending self.old.room group) self.new × (self.new.room ≡ room_then self.old.room - group_chars) }
    {
        self.break_line();
        self.put_bytes(&group);
        self.room -= GROUP_CHARS;
    }

    // Writes full lines, so many bytes of the data. The table is bound here, once for all of them, since a constant is stored anew
    // wherever it is named, and only where there are any.
    fn put_full_lines(&mut self, content: &[u8], full: usize)
        requires { (full % 48 ≡ 0) × (full ≤ length content.now) × (self.old.room ≡ line_chars) × HasRoom self.old (written_lines self.old.ending content.now) }
        ensures { PutsLines self.old content.now (drop full content.now) self.new }
    {
        if full == 0 {
            return;
        }
        let table = ValuesTable::new();
        for line in content[..full].chunks_exact(LINE_BYTES) {
            self.break_line();
            let end = self.at + LINE_CHARS;
            line::put_full_line(&table, line, &mut self.out[self.at..end]);
            self.at = end;
            self.room = 0;
        }
    }

    // Writes the last bytes of the data, which are at most a group, and the line end of the last line.
    fn put_last_line(&mut self, table: &EncodeTable, last: &[u8])
        requires { (length last.now ≤ 3) × WholeGroups self.old.room × HasRoom self.old (in_lines self.old.ending self.old.room (encode last.now)) }
        ensures { Puts self.old (in_lines self.old.ending self.old.room (encode last.now)) self.new }
    {
        if last.is_empty() {
            return self.put_end();
        }
        self.put_group(base_64::encode(table, last));
        self.put_end();
    }

    // Writes the lines of the data. Whole groups go in a loop of their own, where their length is known.
    pub fn put_lines(&mut self, table: &EncodeTable, content: &[u8])
        requires { HasRoom self.old (written_lines self.old.ending content.now) }
        ensures { Puts self.old (written_lines self.old.ending content.now) self.new }
    {
        self.room = LINE_CHARS;
        let full = full_bytes(content.len());
        self.put_full_lines(content, full);
        let rest = &content[full..];
        let (groups, last) = rest.split_at(rest.len() - rest.len() % GROUP_BYTES);
        for group in groups.chunks_exact(GROUP_BYTES) {
            self.put_group(base_64::encode(table, group));
        }
        self.put_last_line(table, last);
    }

    // Sets what is behind the text to zero.
    pub fn clear_rest(self)
        requires { self.at ≤ length self.out.now }
        ensures { self.exit.0.now ≡ take self.entry.at self.entry.out.now ++ replicate (length self.entry.out.now - self.entry.at) 0 }
    {
        let TextWriter { out, at, .. } = self;
        output::clear_from(out, at);
    }
}
