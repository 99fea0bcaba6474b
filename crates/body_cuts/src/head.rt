// The head of a source.

use dk_base::is_white;

/// The longest front of the text that has only white space and comments.
pub fn head_of(text: &[u8]) -> &[u8] {
    let mut in_comment = false;
    for (place, byte) in text.iter().enumerate() {
        if in_comment {
            in_comment = *byte != b'\n';
        } else if text[place..].starts_with(b"--") {
            in_comment = true;
        } else if !is_white(*byte) {
            return &text[..place];
        }
    }
    text
}
