// Laws about the definitions, each the contract of a function that does nothing.
ghost use Rattle.njs_interp.specs.Calling.{AcceptedAreDistinct};

/// No function of a script has two parameters of one name, where some text spells the script and nothing in it is refused early
/// (ECMA-262 5.1 §13.1).
pub fn accepted_scripts_have_distinct_parameters()
    ensures { AcceptedAreDistinct }
{}
