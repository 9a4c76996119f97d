// Why a book is refused, and why a call gives no answer: document 01's numbers 10 to 15, and their place.
ghost use Rattle.std.specs.Prelude.{◌≡◌};
ghost use Rattle.book.specs.Refused.{number_of, place_of};
ghost use Rattle.book.specs.declared.refusal.NoAnswer.TheVariants.{Refused};

// Why a book is refused: 11, 12, 13, or 14 with the lowest bad node.
#[derive(Clone, Copy, PartialEq, Eq, Debug)]
pub enum Refusal {
    Short,
    Ranges,
    Extent,
    Node(usize),
}

// Why a call gives no answer: a lent buffer is too short, 10; the book is refused; or its build is over a limit, 15.
#[derive(Clone, Copy, PartialEq, Eq, Debug)]
pub enum NoAnswer {
    Lent,
    Refused(Refusal),
    Oversized,
}

impl NoAnswer {
    // Document 01's place: the lowest bad node, else 0.
    pub fn place(self) -> usize
        ensures { result ≡ place_of self }
    {
        match self {
            NoAnswer::Refused(Refusal::Node(i)) => i,
            _ => 0,
        }
    }
}

impl From<Refusal> for NoAnswer {
    ghost from_gives = { λ e n. n ≡ Refused e };

    fn from(e: Refusal) -> NoAnswer {
        NoAnswer::Refused(e)
    }
}

impl From<NoAnswer> for u32 {
    ghost from_gives = { λ e n. n ≡ number_of e };

    fn from(e: NoAnswer) -> u32 {
        match e {
            NoAnswer::Lent => 10,
            NoAnswer::Refused(Refusal::Short) => 11,
            NoAnswer::Refused(Refusal::Ranges) => 12,
            NoAnswer::Refused(Refusal::Extent) => 13,
            NoAnswer::Refused(Refusal::Node(_)) => 14,
            NoAnswer::Oversized => 15,
        }
    }
}
