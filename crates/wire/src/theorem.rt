ghost use Rattle.wire.specs.Streams.{FieldByField, WorkedInput};

/// An input that is handed over field by field is answered as the whole of it: the definitions of `answer_all` do not
/// depend on where an input is cut between two fields.
pub fn fields_may_come_one_by_one()
    ensures streams { FieldByField }
    ensures worked { WorkedInput }
{}
