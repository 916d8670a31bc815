// Why a text is refused.
ghost use Rattle.std.specs.Prelude.{◌≡◌};
ghost use Rattle.text.specs.Numbers.{number_of};

// The causes of "What is refused", with their numbers. 12 is not among them: it names a task.
#[derive(Clone, Copy, Debug, PartialEq, Eq, Hash)]
pub enum Refusal {
    // A text is longer than the limit.
    TooLong = 1,
    // A line's opening, fields, number form or end is wrong, it is out of turn, missing or left over.
    BadLine = 2,
    // A number is outside its range.
    OutOfRange = 3,
    // There are fewer processors than replicas of a task.
    TooFewProcessors = 4,
    // A processor has a delay to itself.
    OwnDelay = 5,
    // An edge from a task to itself, or a pair that an earlier line has.
    RepeatedEdge = 6,
    // The edges form a circle.
    Circle = 7,
    // The output is shorter than the answer.
    NoRoom = 8,
    // The plan is not for this job.
    OtherJob = 9,
    // A task comes twice, or before a predecessor.
    TaskOutOfTurn = 10,
    // The processors of a line descend.
    ProcessorsDescend = 11,
    // A tick is not the equations'.
    WrongTick = 13,
    // M* or M is not the equations'.
    WrongMakespan = 14,
    // The processors of a stop list do not ascend.
    StopsDescend = 15,
    // The edges do not ascend.
    EdgesDescend = 16,
}

impl From<Refusal> for u64 {
    ghost from_gives = { λ refusal n. n ≡ number_of refusal };

    fn from(refusal: Refusal) -> u64 {
        refusal as u64
    }
}
