// A line of a scenario, without its remark, token by token.
ghost use Rattle.std.specs.Prelude.{◌≡◌, ◌<◌, length, IfSome};
ghost use Rattle.std.specs.Option.{option_map};
ghost use Rattle.text.specs.Lines.{before_remark, next_token, parts};

use crate::class::Class;

/// The line up to the `#` that starts its remark.
pub fn without_remark(line: &[u8]) -> &[u8]
    ensures { result.now ≡ before_remark line.now }
{
    &line[..Class::NotHash.leading(line)]
}

/// The first token of a text, and the text after it. None where the text is blank.
pub fn next_token(text: &[u8]) -> Option<(&[u8], &[u8])>
    ensures value { option_map parts result ≡ next_token text.now }
    ensures less { IfSome result (λ x. length x.1.now < length text.now) }
{
    let trimmed = &text[Class::Blank.leading(text)..];
    if trimmed.is_empty() {
        return None;
    }
    Some(trimmed.split_at(Class::NotBlank.leading(trimmed)))
}
