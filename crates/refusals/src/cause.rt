// The causes of a refusal.

ghost use Rattle.std.specs.Prelude.{◌≡◌};
ghost use Rattle.refusals.specs.Causes.{number_of, layer_of, layer_number};

// The layer of the check that finds a fault.
#[derive(Clone, Copy, PartialEq, Eq)]
pub enum Layer {
    Spelling,
    Tree,
    Memory,
    CallOrder,
}

#[derive(Clone, Copy, PartialEq, Eq)]
pub enum Cause {
    // Line 0 of a policy file is absent, differs or does not end with byte 10.
    Header,
    // A line of a policy file does not end with byte 10 or has not exactly five spaces.
    Shape,
    // The kind is none of the 21.
    UnknownKind,
    // The algorithm is none of the eight, or its strategy none of the two.
    UnknownAlgorithm,
    // Any other field of a policy file is misspelt.
    Misspelt,
    // A line is named that does not stand above.
    NotAbove,
    // The line that is named has another family than its place asks for.
    WrongFamily,
    // A line is named a second time.
    NamedTwice,
    // A line other than the last is never named.
    NeverNamed,
    // The last line is no policy.
    LastNotPolicy,
    // There is no line after line 0, or there are more than 256.
    LineCount,
    // There is no line of names, or byte 10 is not at its end.
    NoNames,
    // There are more than 64 names.
    TooManyNames,
    // A name is misspelt.
    NameMisspelt,
    // A name is repeated.
    NameRepeated,
    // The cells of a row are more or fewer than the names, or it does not end with byte 10.
    RowShape,
    // A cell is misspelt.
    CellMisspelt,
    // The memory given, or the memory for a file, is too small.
    TooSmall,
    // A call asks for a policy, and none is in force.
    NoPolicy,
    // A call asks for readings, and none were read since the policy came into force.
    NoReadings,
    // A call has to wait until the response that waits is enforced.
    ResponseWaits,
    // A response is to be enforced, and none waits.
    NoneWaits,
}

impl Cause {
    // The layer that finds the cause.
    pub fn layer(self) -> Layer
        ensures { layer_number result ≡ layer_of (number_of self) }
    {
        match self {
            Cause::NotAbove | Cause::WrongFamily => Layer::Tree,
            Cause::NamedTwice | Cause::NeverNamed | Cause::LastNotPolicy => Layer::Tree,
            Cause::LineCount => Layer::Tree,
            Cause::TooSmall => Layer::Memory,
            Cause::NoPolicy | Cause::NoReadings => Layer::CallOrder,
            Cause::ResponseWaits | Cause::NoneWaits => Layer::CallOrder,
            _ => Layer::Spelling,
        }
    }
}

// The number by which the cause is reported.
impl From<Cause> for u8 {
    ghost from_gives = { λ cause number. number ≡ number_of cause };

    fn from(cause: Cause) -> u8 {
        match cause {
            Cause::Header => 1,
            Cause::Shape => 2,
            Cause::UnknownKind | Cause::UnknownAlgorithm => 3,
            Cause::Misspelt => 4,
            Cause::NotAbove | Cause::WrongFamily => 5,
            Cause::NamedTwice | Cause::NeverNamed | Cause::LastNotPolicy => 6,
            Cause::LineCount => 7,
            Cause::NoNames | Cause::TooManyNames => 8,
            Cause::NameMisspelt | Cause::NameRepeated => 8,
            Cause::RowShape => 9,
            Cause::CellMisspelt => 10,
            Cause::TooSmall => 11,
            Cause::NoPolicy => 12,
            Cause::NoReadings => 13,
            Cause::ResponseWaits => 14,
            Cause::NoneWaits => 15,
        }
    }
}

// The number by which the layer is reported.
impl From<Layer> for u8 {
    ghost from_gives = { λ layer number. number ≡ layer_number layer };

    fn from(layer: Layer) -> u8 {
        match layer {
            Layer::Spelling => 1,
            Layer::Tree => 2,
            Layer::Memory => 3,
            Layer::CallOrder => 4,
        }
    }
}
