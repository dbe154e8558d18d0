// The lines of a program that tries calls, in a lent buffer.
ghost use Rattle.std.specs.Prelude.{◌++◌};
ghost use Rattle.rules.specs.Text.{line_feed};
ghost use Rattle.text.specs.Put.{Put};
ghost use Rattle.test_calls.specs.Lines.{call_text};

use super::trial::Tried;
use text::Text;

// The rest of a line: a text, and the line's end.
pub fn put_rest(out: &mut Text, at: usize, text: &[u8]) -> usize
    ensures { Put out.old at (text.now ++ line_feed) out.new result }
{
    let p = text::put_text(out, at, text);
    text::put_byte(out, p, b'\n')
}

// The line of call n with a note behind it, or that the entries differ.
pub fn put_call(out: &mut Text, n: u64, tried: Tried, note: &[u8]) -> usize
    ensures { Put out.old 0 (call_text n tried note.now ++ line_feed) out.new result }
{
    if !tried.agrees {
        return put_rest(out, 0, b"differs");
    }
    let step = tried.step;
    let end = text::put_line(out, 0, n, step.answer, step.thread) - 1;
    put_rest(out, end, note)
}
