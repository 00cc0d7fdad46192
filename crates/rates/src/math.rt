// The greatest common divisor, and linear interpolation between two samples.
ghost use Rattle.std.specs.Prelude.{◌≡◌, ℕ};
ghost use Rattle.std.specs.Int.{◌∣◌};
ghost use Rattle.rates.specs.Rates.{gcd as greatest_divisor, lerp_by};

pub fn gcd(a: u32, b: u32) -> u32
    ensures answer { result ≡ greatest_divisor a b }
    ensures divides { (result ∣ a) × (result ∣ b) }
    ensures greatest { (d : ℕ) → d ∣ a → d ∣ b → d ∣ result }
{
    let mut x = a;
    let mut y = b;
    while y != 0 {
        let r = x % y;
        x = y;
        y = r;
    }
    x
}

// The sample that lies numerator / denominator of the way from the first to the second.
pub fn lerp(first: f32, second: f32, numerator: f32, denominator: f32) -> f32
    ensures answer { result ≡ lerp_by numerator denominator first second }
{
    first + (second - first) * numerator / denominator
}
