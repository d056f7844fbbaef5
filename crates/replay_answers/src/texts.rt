// Printed texts, compared.

// Whether a byte is a hexadecimal digit as they are printed.
fn is_digit(byte: u8) -> bool {
    matches!(byte, b'0'..=b'9' | b'a'..=b'f')
}

// Whether a text starts with the 16 digits of a NaN: 7ff or fff, then a fraction that is not 0.
fn starts_with_nan(text: &[u8]) -> bool {
    let [b'7' | b'f', b'f', b'f', rest @ ..] = text else {
        return false;
    };
    rest.get(..13).is_some_and(|fraction| {
        fraction.iter().all(|digit| is_digit(*digit)) && fraction.iter().any(|digit| *digit != b'0')
    })
}

// Whether two texts are the same, but for which NaN each has. No other text has 16 digits on end.
pub fn are_alike(text: &[u8], expected: &[u8]) -> bool {
    let mut text = text;
    let mut expected = expected;
    while let ([byte, rest @ ..], [expected_byte, expected_rest @ ..]) = (text, expected) {
        if starts_with_nan(text) && starts_with_nan(expected) {
            text = text.get(16..).unwrap_or(&[]);
            expected = expected.get(16..).unwrap_or(&[]);
        } else if byte == expected_byte {
            text = rest;
            expected = expected_rest;
        } else {
            return false;
        }
    }
    text.is_empty() && expected.is_empty()
}
