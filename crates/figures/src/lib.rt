// The ranges of document 01, "Figures and their ranges", and of the rows' cells, those of a process among them.
#![tactic(auto, unfolding(rules::proofs::Computed::Computed))]

ghost use Rattle.std.specs.Prelude.{◌≡◌, true};
ghost use Rattle.integers.specs.Order.{in_range};
ghost use Rattle.rules.specs.Figures as Figures;
ghost use Rattle.rules.specs.Figures.{magnitude_at_most, most_quantity, valid_id, valid_suffix, valid_account, valid_series, valid_quantity, valid_day, valid_price, valid_side, is_buy, is_to_close};
ghost use Rattle.rules.specs.Rows.{valid_kind, valid_status, valid_signed_quantity, valid_booked, valid_total, valid_into, valid_parent};
ghost use Rattle.rules.specs.ProcessRows.{valid_approval, valid_stage};

use rules::Stage;
use rules::codes::{
    ADJUSTABLE, CLOSING_ERROR, GIVE_UP, GREATEST_SUFFIX, INVERSE, LAST_DAY, MERGE, MOST_QUANTITY,
    ORIGINAL, SEPARATION, TAKE_UP, TRANSFER, UNDER_GIVE_UP,
};

pub fn in_range(low: i64, high: i64, z: i64) -> bool
    ensures { result ≡ in_range low high z }
{
    (low..=high).contains(&z)
}

pub fn valid_id(z: i64) -> bool
    ensures { result ≡ valid_id z }
{
    in_range(1, 999_999_999, z)
}

pub fn valid_suffix(z: i64) -> bool
    ensures { result ≡ valid_suffix z }
{
    in_range(0, GREATEST_SUFFIX, z)
}

pub fn valid_account(z: i64) -> bool
    ensures { result ≡ valid_account z }
{
    in_range(1, 9_999, z)
}

pub fn valid_series(z: i64) -> bool
    ensures { result ≡ valid_series z }
{
    in_range(1, 999_999, z)
}

pub fn valid_quantity(z: i64) -> bool
    ensures { result ≡ valid_quantity z }
{
    in_range(1, MOST_QUANTITY, z)
}

pub fn valid_day(z: i64) -> bool
    ensures { result ≡ valid_day z }
{
    in_range(1, LAST_DAY, z)
}

pub fn valid_price(z: i64) -> bool
    ensures { result ≡ valid_price z }
{
    in_range(-1_000_000_000_000, 1_000_000_000_000, z)
}

pub fn valid_side(z: i64) -> bool
    ensures { result ≡ valid_side z }
{
    in_range(1, 4, z)
}

pub fn is_buy(side: i64) -> bool
    ensures { result ≡ is_buy side }
{
    matches!(side, 1 | 3)
}

// An amount with the sign of its side: buys plus, sells minus.
pub fn signed(side: i64, amount: i64) -> i64
    requires { magnitude_at_most most_quantity amount ≡ true }
    ensures { result ≡ Figures.signed side amount }
{
    if is_buy(side) { amount } else { -amount }
}

pub fn is_to_close(side: i64) -> bool
    ensures { result ≡ is_to_close side }
{
    matches!(side, 3 | 4)
}

pub fn valid_kind(z: i64) -> bool
    ensures { result ≡ valid_kind z }
{
    matches!(
        z,
        ORIGINAL | TRANSFER | SEPARATION | CLOSING_ERROR | GIVE_UP | TAKE_UP | MERGE
    )
}

pub fn valid_status(z: i64) -> bool
    ensures { result ≡ valid_status z }
{
    in_range(ADJUSTABLE, UNDER_GIVE_UP, z)
}

// Not zero, at most 1,000,000 in magnitude, and negative exactly in an inverse.
pub fn valid_signed_quantity(status: i64, q: i64) -> bool
    ensures { result ≡ valid_signed_quantity status q }
{
    if status == INVERSE {
        in_range(-1_000_000, -1, q)
    } else {
        in_range(1, 1_000_000, q)
    }
}

pub fn valid_booked(z: i64) -> bool
    ensures { result ≡ valid_booked z }
{
    in_range(-1_000_000, 1_000_000, z)
}

pub fn valid_total(z: i64) -> bool
    ensures { result ≡ valid_total z }
{
    in_range(-4_000_000_000_000_000_000, 4_000_000_000_000_000_000, z)
}

pub fn valid_into(z: i64) -> bool
    ensures { result ≡ valid_into z }
{
    z == 0 || valid_id(z)
}

// Below the suffix, or both are 0. As `parent < suffix || (parent == 0 && suffix == 0)` it was tried: the scan of a full records table takes 9 percent longer.
pub fn valid_parent(parent: i64, suffix: i64) -> bool
    ensures { result ≡ valid_parent parent suffix }
{
    if suffix == 0 {
        parent <= 0
    } else {
        parent < suffix
    }
}

pub fn valid_approval(z: i64) -> bool
    ensures { result ≡ valid_approval z }
{
    in_range(0, 1, z)
}

pub fn valid_stage(z: i64) -> bool
    ensures { result ≡ valid_stage z }
{
    Stage::try_from(z).is_ok()
}
