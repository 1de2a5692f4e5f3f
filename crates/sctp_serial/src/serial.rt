// Serial number arithmetic on SSNs (16 bits) and TSNs (32 bits), RFC 4960 section 1.6 after RFC 1982.
ghost use Rattle.std.specs.Prelude.{◌≡◌, ℕ, nat_lt, nat_le};
ghost use Rattle.sctp_serial.specs.Serial.{ssn_lt, ssn_lte, ssn_gt, ssn_gte, tsn_lt, tsn_lte, tsn_gt, tsn_gte};
ghost use Rattle.sctp_serial.specs.Serial.{ssn_from, tsn, AreNear16, AreNear32};

/// Whether `b` is 1 to 32,767 past `a`.
pub fn sna16lt(a: u16, b: u16) -> bool
    ensures { result ≡ ssn_lt a b }
{
    let distance = b.wrapping_sub(a);
    0 < distance && distance < 0x8000
}

/// The same number, or less.
pub fn sna16lte(a: u16, b: u16) -> bool
    ensures { result ≡ ssn_lte a b }
{
    a == b || sna16lt(a, b)
}

/// Neither the same number nor less; so also where the two are exactly half the range apart.
pub fn sna16gt(a: u16, b: u16) -> bool
    ensures { result ≡ ssn_gt a b }
{
    a != b && !sna16lt(a, b)
}

/// The same number, or greater.
pub fn sna16gte(a: u16, b: u16) -> bool
    ensures { result ≡ ssn_gte a b }
{
    a == b || sna16gt(a, b)
}

/// Whether `b` is 1 to 2^31 - 1 past `a`.
pub fn sna32lt(a: u32, b: u32) -> bool
    ensures { result ≡ tsn_lt a b }
{
    let distance = b.wrapping_sub(a);
    0 < distance && distance < 0x8000_0000
}

/// The same number, or less.
pub fn sna32lte(a: u32, b: u32) -> bool
    ensures { result ≡ tsn_lte a b }
{
    a == b || sna32lt(a, b)
}

/// Neither the same number nor less; so also where the two are exactly half the range apart.
pub fn sna32gt(a: u32, b: u32) -> bool
    ensures { result ≡ tsn_gt a b }
{
    a != b && !sna32lt(a, b)
}

/// The same number, or greater.
pub fn sna32gte(a: u32, b: u32) -> bool
    ensures { result ≡ tsn_gte a b }
{
    a == b || sna32gt(a, b)
}

/// SSNs at offsets less than half the range apart compare as their offsets do, over any number of turns of the range.
pub fn ssn_order_is_of_offsets()
    ensures lt { (first a b : ℕ) → AreNear16 a b → ssn_lt (ssn_from first a) (ssn_from first b) ≡ nat_lt a b }
    ensures lte { (first a b : ℕ) → AreNear16 a b → ssn_lte (ssn_from first a) (ssn_from first b) ≡ nat_le a b }
    ensures gt { (first a b : ℕ) → AreNear16 a b → ssn_gt (ssn_from first a) (ssn_from first b) ≡ nat_lt b a }
    ensures gte { (first a b : ℕ) → AreNear16 a b → ssn_gte (ssn_from first a) (ssn_from first b) ≡ nat_le b a }
{}

/// TSNs at offsets less than half the range apart compare as their offsets do, over any number of turns of the range.
pub fn tsn_order_is_of_offsets()
    ensures lt { (first a b : ℕ) → AreNear32 a b → tsn_lt (tsn first a) (tsn first b) ≡ nat_lt a b }
    ensures lte { (first a b : ℕ) → AreNear32 a b → tsn_lte (tsn first a) (tsn first b) ≡ nat_le a b }
    ensures gt { (first a b : ℕ) → AreNear32 a b → tsn_gt (tsn first a) (tsn first b) ≡ nat_lt b a }
    ensures gte { (first a b : ℕ) → AreNear32 a b → tsn_gte (tsn first a) (tsn first b) ≡ nat_le b a }
{}
