// Numbers in decimal digits.
ghost use Rattle.std.specs.{Prelude.{◌≡◌, ◌-◌, ◌^◌, cond, Some, None, option_map}, List.{list_all}};
ghost use Rattle.dpmi_words.specs.Numbers.{is_digit, is_between, number_if_given, number_in_text, number_or};

// Whether the bytes are decimal digits.
fn are_digits(bytes: &[u8]) -> bool
    ensures { result ≡ list_all is_digit bytes.now }
{
    for b in bytes {
        if *b < b'0' || *b > b'9' {
            return false;
        }
    }
    true
}

// The number, where it lies in the range.
fn in_range(n: u32, least: u32, most: u32) -> Option<u32>
    ensures { result ≡ cond (is_between least most n) (Some n) None }
{
    if least <= n && n <= most {
        Some(n)
    } else {
        None
    }
}

/// The number that the text is: 1 to 10 decimal digits, with a value in the range; else `None`. Source: own.
pub fn number(text: &str, least: u32, most: u32) -> Option<u32>
    ensures { result ≡ number_in_text 10 least most text.now }
{
    if text.len() > 10 || !are_digits(text.as_bytes()) {
        return None;
    }
    match text.parse::<u32>() {
        Ok(n) => in_range(n, least, most),
        Err(_) => None,
    }
}

/// The number of the text, or the usual one where there is no text; `None` where the text is no number in the range. Source: own.
pub fn optional_number(text: Option<&str>, usual: u32, least: u32, most: u32) -> Option<u32>
    ensures { result ≡ number_or usual least most (option_map (λ s. s.now) text.entry) }
{
    match text {
        Some(text) => number(text, least, most),
        None => Some(usual),
    }
}

/// Where no text is given, `Some(None)`; else the number of the text, or `None` where it isn't a number in the range. Source: own.
pub fn number_if_given(text: Option<&str>, least: u32, most: u32) -> Option<Option<u32>>
    ensures { result ≡ number_if_given least most (option_map (λ s. s.now) text.entry) }
{
    match text {
        Some(text) => match number(text, least, most) {
            Some(n) => Some(Some(n)),
            None => None,
        },
        None => Some(None),
    }
}

/// The number of 64 bits that the text is: 1 to 20 decimal digits; else `None`. Source: own.
pub fn seed(text: &str) -> Option<u64>
    ensures { result ≡ number_in_text 20 0 (2 ^ 64 - 1) text.now }
{
    if text.len() > 20 || !are_digits(text.as_bytes()) {
        return None;
    }
    match text.parse::<u64>() {
        Ok(n) => Some(n),
        Err(_) => None,
    }
}
