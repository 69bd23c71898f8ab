// What reading says of bytes, in short.
use framing::accepted::accept;
use framing::framing::Framing;
use layout::source::{Items, Source};
use telegram::refusal::Refusal;

// A number, or a refusal.
pub type Verdict = Result<usize, Refusal>;

// How many items a telegram has; no bound on them is stated, so the count saturates.
fn count<S: Source>(telegram: &S) -> usize {
    Items::new(telegram).fold(0, |n: usize, _| n.saturating_add(1))
}

// How many items the telegram has, or why the bytes are refused.
pub fn judge<F: Framing>(framing: &F, bytes: &[u8]) -> Verdict {
    Ok(count(&accept(framing, bytes)?))
}
