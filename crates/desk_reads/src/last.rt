// The last line of a replay: the end, or a fault and its place.
ghost use Rattle.text.specs.Put.{Put};
ghost use Rattle.desk_parts.specs.Part.{last_text};

use rules::Read;
use text::Text;

// The last line, where something else than a record was found.
#[tactic(auto, unfolding(desk_parts::specs::Part::last_text))]
pub fn put_last(out: &mut Text, at: usize, found: Read, offset: u64, n: u64) -> usize
    ensures { Put out.old at (last_text found offset n) out.new result }
{
    match found {
        Read::Record { .. } => at,
        Read::End => text::put_word(out, at, b"end", n),
        Read::Cut(k) => text::put_word(out, at, b"cut", offset.wrapping_add(k as u64)),
        Read::Length(k) => text::put_word(out, at, b"length", offset.wrapping_add(k as u64)),
        Read::Version(k) => text::put_word(out, at, b"version", offset.wrapping_add(k as u64)),
    }
}
