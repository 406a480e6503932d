ghost use Rattle.std.specs.Prelude.{◌≡◌, ◌+◌, ◌<◌, ◌≤◌, ◌++◌, length, []};
ghost use Rattle.report_text.specs.Period.{period_of, text_of_minutes, two_digits};

use arrayvec::ArrayVec;
use itoa::Buffer;

/// Makes `text` the text of a period of `seconds` seconds, whatever it held before: hours and minutes, to the nearest
/// minute, or whole days from 48 hours on. It has at most 24 bytes.
#[tactic(auto, unfolding(crate::specs::Period::period_of))]
pub fn period_text(seconds: u64, text: &mut ArrayVec<u8, 32>)
    ensures text { text.new.items ≡ period_of seconds }
    ensures fits { length text.new.items ≤ 24 }
{
    text.clear();
    push_minutes(text, ((u128::from(seconds) + 30) / 60) as u64);
}

/// Appends the text of `minutes` minutes.
fn push_minutes(text: &mut ArrayVec<u8, 32>, minutes: u64)
    requires { text.old.items ≡ [] }
    ensures text { text.new.items ≡ text_of_minutes minutes }
    ensures fits { length text.new.items ≤ 24 }
{
    let hours = minutes / 60;
    if hours >= 48 {
        let mut digits = Buffer::new();
        push(text, digits.format(hours / 24).as_bytes());
        push(text, b"days");
    } else {
        push_two_digits(text, hours);
        text.push(b':');
        push_two_digits(text, minutes % 60);
    }
}

/// Appends a number in two digits.
fn push_two_digits(text: &mut ArrayVec<u8, 32>, number: u64)
    requires small { number < 100 }
    requires room { length text.old.items + 2 ≤ 32 }
    ensures { text.new.items ≡ text.old.items ++ two_digits number }
{
    text.push(b'0' + (number / 10) as u8);
    text.push(b'0' + (number % 10) as u8);
}

/// Appends more.
fn push(text: &mut ArrayVec<u8, 32>, more: &[u8])
    requires { length text.old.items + length more.now ≤ 32 }
    ensures { text.new.items ≡ text.old.items ++ more.now }
{
    text.try_extend_from_slice(more).unwrap();
}
