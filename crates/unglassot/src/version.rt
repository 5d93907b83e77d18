// The number of this interface, for a host to compare with the one that it was written for.
ghost use Rattle.std.specs.Prelude.{◌≡◌, pos};
ghost use Rattle.codes.specs.Codes.{version};

// Answers the number.
pub fn unglassot_version() -> i64
    ensures { result ≡ pos version }
{
    codes::version()
}
