// What holds of the first heap.
ghost use Rattle.std.specs.Prelude.{List, ℕ, Bool};
ghost use Rattle.njs_meaning.specs.PlainHeap.{HasEnds};
ghost use Rattle.njs_convert.specs.FirstHeap.{first_objects, first_heap, HavePlaces};

/// Each prototype of the first heap stands at its place (`Prototype::place`), and there is no other object.
pub fn prototypes_have_their_places()
    ensures { HavePlaces first_objects }
{}

/// Every chain of prototypes, of scopes and of bound functions of the first heap ends, whatever names its scope has besides.
pub fn first_heap_has_ends()
    ensures { (further : List (List ℕ × Bool)) → HasEnds (first_heap further) }
{}
