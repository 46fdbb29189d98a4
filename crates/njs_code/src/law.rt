// What the interpreter counts on in valid code.
ghost use Rattle.njs_code.specs.Facts.{ValidCodeKeepsItsRule};

/// Valid code keeps its rule, in each of its functions and in the module's body, and there at each operation: all that an
/// operation takes or needs stands where it stands, what it names is there, and so is each operation that it may go on to,
/// with the depth that it leaves; it goes back only to a `Charge`, and each ending leads further on.
pub fn valid_code_keeps_its_rule()
    ensures { ValidCodeKeepsItsRule }
{}
