// Text and numbers, put into an output buffer one after the other.
#![tactic(auto)]

ghost use Rattle.std.specs.Prelude.{◌≡◌, ◌≤◌, ◌++◌, length, take, drop};
ghost use Rattle.output.specs.Counts.{IsPrefixLen};
ghost use Rattle.output.specs.Put.{filled, after};

pub mod buffer;
pub mod numerals;

// 65,536 zeros: the room for the words of a command line, for an input and for an answer.
pub fn large_buffer() -> [u8; 65536]
    ensures { 65536 ≡ length result }
{
    [0; 65536]
}

// Copies a text to the start of a buffer that has room for it.
fn copy(text: &[u8], out: &mut [u8])
    requires { length text.now ≤ length out.old }
    ensures { out.new ≡ take (length text.now) text.now ++ drop (length text.now) out.old }
{
    let n = text.len();
    out[..n].copy_from_slice(text);
}

// Puts a text into a buffer of which so many bytes are filled, and answers how many are filled afterwards. What is beyond the buffer's end
// is cut off.
pub fn put(text: &[u8], out: &mut [u8], at: usize) -> usize
    ensures prefix_len { IsPrefixLen result out.new }
    ensures value { result ≡ filled text.now out.old at }
    ensures out_after { out.new ≡ after text.now out.old at }
{
    if out.len() <= at {
        return out.len();
    }
    let n = text.len().min(out.len() - at);
    copy(&text[..n], &mut out[at..]);
    at + n
}
