// Small networks that are worked out.
ghost use Rattle.worked.specs.Examples.{WorkedExamples};

// There is nothing to run here: what sealing, tracing and querying four small networks gives.
pub fn worked_examples()
    ensures { WorkedExamples }
{}
