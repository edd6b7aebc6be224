//! The title of a picture.

ghost use Rattle.std.specs.Prelude.{◌≡◌, ◌≤◌, length};
ghost use Rattle.std.specs.List.{prefix_len};
ghost use Rattle.cics_picture.specs.Draw.Titles.{is_in_title, title_of, first_words};

// How many bytes stand before the first full stop, colon or end of a line.
fn words_len(bytes: &[u8]) -> usize
    ensures value { result ≡ prefix_len is_in_title bytes.now }
    ensures within { result ≤ length bytes.now }
{
    bytes
        .iter()
        .take_while(|byte| {
            **byte != b'.' && **byte != b':' && **byte != b'\n' && **byte != b'\r'
        })
        .count()
}

fn first_words(bytes: &[u8]) -> &[u8]
    ensures { result.now ≡ first_words bytes.now }
{
    &bytes[..words_len(bytes)]
}

/// Returns the title of a script. If its first line is a comment, that is what it says up to a full
/// stop or a colon.
pub fn title_of(script: &[u8]) -> &[u8]
    ensures { result.now ≡ title_of script.now }
{
    match script.strip_prefix("* ".as_bytes()) {
        Some(comment) => first_words(comment),
        None => "A run of a script".as_bytes(),
    }
}
