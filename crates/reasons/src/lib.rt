// The refusal number of a reason, as C and the program give it.
#![tactic(auto)]

ghost use Rattle.std.specs.Prelude.{◌≡◌};
ghost use Rattle.types.specs.Answers.{number_of};

use types::Reason;

// The refusal number.
// Stays: (a) From<Reason> for u8 may be implemented beside Reason alone, in types, and must-fail/another_number.edit is of this crate.
pub fn number_of(reason: Reason) -> u8
    ensures { result ≡ number_of reason }
{
    match reason {
        Reason::FileTooShort => 1,
        Reason::FileTooLong => 2,
        Reason::UnknownEdition => 3,
        Reason::WrongLength => 4,
        Reason::CountOutsideLimits => 5,
        Reason::WrongOffset => 6,
        Reason::SectionPastEnd => 7,
        Reason::ListTooLong => 8,
        Reason::BytesLeft => 9,
        Reason::MeshSizeZero => 10,
        Reason::TooManyDevices => 11,
        Reason::TensorSizeZero => 12,
        Reason::TooManyWords => 13,
        Reason::StartAxisTooLarge => 14,
        Reason::StartAxisRepeated => 15,
        Reason::StartNotIncreasing => 16,
        Reason::StartNotDivisible => 17,
        Reason::ReplicatedEmpty => 18,
        Reason::WrongOrder => 19,
        Reason::UnknownKind => 20,
        Reason::NoAxis => 21,
        Reason::AxisTooLarge => 22,
        Reason::NotReplicated => 23,
        Reason::NotTail => 24,
        Reason::ShardNotDivisible => 25,
        Reason::NotIncreasing => 26,
        Reason::NotReducible => 27,
        Reason::WrongDims => 28,
        Reason::WorkTooShort => 30,
        Reason::SpareTooShort => 31,
        Reason::NoSuchDevice => 32,
        Reason::OutputTooShort => 33,
        Reason::NoSuchState => 34,
        Reason::BufferTooShort => 35,
        Reason::GoalOutOfReach => 40,
        Reason::ShardingChanged => 41,
        Reason::TooDeep => 42,
        Reason::TooManyRun => 43,
        Reason::RepeatOfNothing => 44,
    }
}
