// Laws of the integers, and the average price of a merge with its residual.
#![tactic(auto)]

ghost use Rattle.std.specs.Prelude.{◌≡◌};
ghost use Rattle.integers.specs.Average.{average_of, residual_of};
ghost use Rattle.integers.specs.Averageable.{Averageable};

// The value over the quantity, rounded to a whole unit, a half going away from zero.
// Division is toward zero, so the remainder has the value's sign: half the quantity or more above corrects by one up, half or more below by one down.
pub fn average(value: i64, quantity: i64) -> i64
    requires { Averageable value quantity }
    ensures { result ≡ average_of value quantity }
{
    let quotient = value / quantity;
    let rest = value % quantity;
    let twice = rest + rest;
    if quantity <= twice {
        quotient + 1
    } else if twice <= -quantity {
        quotient - 1
    } else {
        quotient
    }
}

// The quantity times the average, less the value, for a buy; the negative of that for a sell.
pub fn residual(buy: bool, value: i64, quantity: i64) -> i64
    requires { Averageable value quantity }
    ensures { result ≡ residual_of buy value quantity }
{
    let product = quantity * average(value, quantity);
    if buy {
        product - value
    } else {
        value - product
    }
}
