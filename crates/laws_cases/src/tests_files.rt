//! Tests files. The function does nothing: it has laws as its contract.
ghost use Rattle.laws_cases.specs.TestsFiles.{HeaderIsWhole, NothingIsExpected};

/// The header's third field is `arguments`, and no value is expected of a function without a
/// result.
pub fn fields_are_told()
    ensures header { HeaderIsWhole }
    ensures expect { NothingIsExpected }
{}
