// Numbers and fields put into a text at a place, and how many bytes they take. Who writes sums the widths first, so that a text too short stays as it was.
ghost use Rattle.std.specs.Prelude.{◌+◌, ◌*◌, ◌≤◌, ◌≡◌, [], ◌∷◌, length};
ghost use Rattle.text.specs.Decimal.{digits_of, number_text};
ghost use Rattle.text.specs.Fields.{fields_text};
ghost use Rattle.text.specs.Written.{written};

// No index is counted, and checked_ilog10 with its case for 0 would be no plainer.
fn digits_width(n: u64) -> usize
    ensures { (result ≡ length (digits_of n)) × (result ≤ 20) }
{
    let mut width = 1;
    let mut left = n / 10;
    while 0 < left {
        width += 1;
        left /= 10;
    }
    width
}

// How many bytes a number takes.
pub fn number_width(z: i64) -> usize
    ensures { (result ≡ length (number_text z)) × (result ≤ 21) }
{
    digits_width(z.unsigned_abs()) + usize::from(z < 0)
}

// How many bytes fields take, each with its tab.
pub fn fields_width(figures: &[i64]) -> usize
    requires { length figures.now ≤ 100000 }
    ensures { (result ≡ length (fields_text figures.now)) × (result ≤ 22 * length figures.now) }
{
    let mut width = 0;
    for &figure in figures {
        width += 1 + number_width(figure);
    }
    width
}

// One byte. Each of these answers the place after what it wrote.
pub fn write_byte(text: &mut [u8], at: usize, b: u8) -> usize
    requires { at + 1 ≤ length text.old }
    ensures { (result ≡ at + 1) × (text.new ≡ written (b ∷ []) at text.old) }
{
    text[at] = b;
    at + 1
}

// The last digit after those before it.
fn write_digits(text: &mut [u8], at: usize, n: u64) -> usize
    requires { at + length (digits_of n) ≤ length text.old }
    ensures { (result ≡ at + length (digits_of n)) × (text.new ≡ written (digits_of n) at text.old) }
{
    if n < 10 {
        return write_byte(text, at, b'0' + (n as u8));
    }
    let last = write_digits(&mut *text, at, n / 10);
    write_byte(text, last, b'0' + ((n % 10) as u8))
}

pub fn write_number(text: &mut [u8], at: usize, z: i64) -> usize
    requires { at + length (number_text z) ≤ length text.old }
    ensures { (result ≡ at + length (number_text z)) × (text.new ≡ written (number_text z) at text.old) }
{
    if z < 0 {
        let after = write_byte(&mut *text, at, b'-');
        return write_digits(text, after, z.unsigned_abs());
    }
    write_digits(text, at, z.unsigned_abs())
}

// Fields that follow another one, each after its tab.
pub fn write_fields(text: &mut [u8], at: usize, figures: &[i64]) -> usize
    requires { at + length (fields_text figures.now) ≤ length text.old }
    ensures { (result ≡ at + length (fields_text figures.now)) × (text.new ≡ written (fields_text figures.now) at text.old) }
{
    let mut next = at;
    for &figure in figures {
        let after = write_byte(&mut *text, next, b'\t');
        next = write_number(&mut *text, after, figure);
    }
    next
}
