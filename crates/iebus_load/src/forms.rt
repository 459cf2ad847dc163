// A form with its numbers: each @ in it stands for the next one, in five columns.
ghost use Rattle.std.specs.Prelude.{◌≡◌, ◌<◌};
ghost use Rattle.pieces.specs.Pieces.{Put};
ghost use Rattle.iebus_load.specs.Forms.{column_of, digit_at, woven};

use pieces::put;

const MARK: u8 = b'@';

fn digit(unit: u32, n: u32) -> u8
    requires { 0 < unit }
    ensures { result ≡ digit_at unit n }
{
    if n < unit {
        b' '
    } else {
        b'0' + (n / unit % 10) as u8
    }
}

// Not by a formatter, as every byte of a text is promised, and no contract says what bytes one writes.
#[tactic(auto, unfolding(crate::specs::Forms::column_of))]
fn column(n: u32) -> [u8; 5]
    ensures { result ≡ column_of n }
{
    [
        digit(10000, n),
        digit(1000, n),
        digit(100, n),
        digit(10, n),
        b'0' + (n % 10) as u8,
    ]
}

pub(crate) fn put_form(text: &mut [u8], at: usize, form: &[u8], numbers: &[u32]) -> usize
    ensures { Put text.old at (woven form.now numbers.now) result text.new }
{
    let mut left = numbers.iter();
    let mut end = at;
    for byte in form {
        end = if *byte == MARK {
            put(text, end, &column(left.next().copied().unwrap_or(0)))
        } else {
            put(text, end, &[*byte])
        };
    }
    end
}
