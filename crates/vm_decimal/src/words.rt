//! The texts that say that there is no number.
ghost use Rattle.std.specs.Prelude.{◌≡◌, ◌≤◌, length};
ghost use Rattle.vm_decimal.specs.Words.{no_numbers};
ghost use Rattle.vm_decimal.specs.WordPlaces.{common as common_front, wrong_word, wrong_among};

/// Where the text leaves `nan`, `inf` and `infinity`, in any case and the last two with an optional
/// sign: the last place at which it leaves one of them, none where it is one.
pub(crate) fn words_wrong(text: &[u8]) -> Option<usize>
    ensures value { result ≡ wrong_among no_numbers text.now }
{
    let nan = word_wrong(b"nan", text)?;
    let inf = word_wrong(b"inf", text)?;
    let infinity = word_wrong(b"infinity", text)?;
    let plus = word_wrong(b"+inf", text)?;
    let plus_infinity = word_wrong(b"+infinity", text)?;
    let minus = word_wrong(b"-inf", text)?;
    let minus_infinity = word_wrong(b"-infinity", text)?;
    let signed = plus.max(plus_infinity.max(minus.max(minus_infinity)));
    Some(nan.max(inf.max(infinity.max(signed))))
}

/// Where a text leaves a word, none where it is the word.
fn word_wrong(word: &[u8], text: &[u8]) -> Option<usize>
    ensures { result ≡ wrong_word word.now text.now }
{
    let front = common(word, text);
    if front == word.len() && front == text.len() {
        return None;
    }
    Some(front)
}

/// How many bytes a word in lower case and a text in any have in common at their fronts.
fn common(word: &[u8], text: &[u8]) -> usize
    ensures { result ≡ common_front word.now text.now }
{
    let mut front = 0;
    'front: while front < word.len()
        && front < text.len()
        && text[front].to_ascii_lowercase() == word[front]
    {
        front += 1;
    }
    front
}
