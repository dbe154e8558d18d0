// What a program that tries calls prints: a text is put into a buffer, and written from there.
use text::Text;

// Prints what `put` puts at the front of a buffer; it answers where its text ends.
pub fn print<F: FnOnce(&mut Text) -> usize>(rt: &HostRuntime, put: F)
    requires { F.IsAlwaysCallable put }
{
    let mut out = [0u8; 16384];
    let len = put(&mut out);
    let _ = rt.write_all(text::front(&out, len));
}
