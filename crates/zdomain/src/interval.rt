//! Intervals of signed numbers.

ghost use Rattle.std.specs.Prelude.{◌≤ℤ◌};

/// The signed numbers from `lo` to `hi`, of which there is at least one.
///
/// As a set of words it has each word whose signed reading is one of them. So an interval that reaches across 0 has
/// addresses at both ends of 64 KiB, and none reaches across 32,767.
#[derive(Clone, Copy, Debug, PartialEq, Eq)]
pub struct Interval {
    pub lo: i16,
    pub hi: i16,
    pub ghost ordered: { lo ≤ℤ hi },
}

impl Interval {
    ghost use Rattle.std.specs.Prelude.{◌≡◌, ◌↔◌, ◌<ℤ◌, IfSome, IsNone};
    ghost use Rattle.zdomain.specs.Interval.{interval_of, point, is_single, has_zero, has_negative, all_words};

    /// The numbers from `lo` to `hi`, or `None` where there is none.
    pub fn new(lo: i16, hi: i16) -> Option<Interval>
        ensures made { result ≡ interval_of lo hi }
        ensures ends { IfSome result (λ i. (i.lo ≡ lo) × (i.hi ≡ hi)) }
        ensures empty { IsNone result ↔ (hi <ℤ lo) }
    {
        if lo <= hi {
            Some(Interval { lo, hi })
        } else {
            None
        }
    }

    /// The one word.
    pub(crate) fn of_word(word: u16) -> Interval
        ensures { result ≡ point word }
    {
        let value = word.cast_signed();
        Interval {
            lo: value,
            hi: value,
        }
    }

    /// All words.
    pub(crate) fn all() -> Interval
        ensures { result ≡ all_words }
    {
        Interval {
            lo: i16::MIN,
            hi: i16::MAX,
        }
    }

    /// The lower end, in the 32 bits in which ends are computed.
    pub(crate) fn low(self) -> i32
        ensures { result ≡ self.lo }
    {
        i32::from(self.lo)
    }

    /// The upper end, in the 32 bits in which ends are computed.
    pub(crate) fn high(self) -> i32
        ensures { result ≡ self.hi }
    {
        i32::from(self.hi)
    }

    /// Whether it has but one number.
    pub(crate) fn is_single(self) -> bool
        ensures { result ≡ is_single self }
    {
        self.hi <= self.lo
    }

    /// Whether it has 0.
    pub(crate) fn has_zero(self) -> bool
        ensures { result ≡ has_zero self }
    {
        self.lo <= 0 && 0 <= self.hi
    }

    /// Whether it has a number below 0.
    pub(crate) fn has_negative(self) -> bool
        ensures { result ≡ has_negative self }
    {
        self.lo < 0
    }
}
