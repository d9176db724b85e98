// The records that are delivered, by their bytes.
ghost use Rattle.std.specs.Prelude.{◌≡◌, ℕ, List, Option};
ghost use Rattle.records.specs.declared.class.Class.{Class};
ghost use Rattle.records.specs.Spellings.{ReadsBack, OneSpelling, ReadWhereItFits};

// Records of a class: each has one spelling, and is read where bytes fit the class.
pub trait Delivered: Sized {
    ghost class: { Class };

    // the record that bytes say; none where they do not fit
    ghost said: { List ℕ → Option Self };

    // the bytes of a record
    ghost spelled: { Self → List ℕ };

    // the numbers of a record fit their fields
    ghost held: { Self → Type 0 };

    // The record that bytes say; none where they do not fit.
    fn from_bytes(bytes: &[u8]) -> Option<Self>
        ensures value { result ≡ said bytes.now }
        ensures back { ReadsBack said held spelled }
        ensures only { OneSpelling said spelled }
        ensures fits { ReadWhereItFits said class };
}
