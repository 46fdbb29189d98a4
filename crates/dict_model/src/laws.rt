// Laws of the dictionary.
ghost use Rattle.dict_model.specs.Laws.{ExpiredIsGone};

/// An entry whose expiry is at or below the moment is never answered, and nothing else of it is seen: each operation
/// answers what it would answer without that entry, and leaves the same.
pub fn expired_entries_are_gone()
    ensures { ExpiredIsGone }
{}
