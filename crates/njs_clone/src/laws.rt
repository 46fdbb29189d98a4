// What holds of all heaps.
ghost use Rattle.std.specs.Prelude.{◌≡◌, map};
ghost use Rattle.njs_shared.specs.Heap.{Heap};
ghost use Rattle.njs_shared.specs.Fits.{FitsHeap};
ghost use Rattle.njs_shared.specs.Ends as shared;
ghost use Rattle.njs_meaning.specs.PlainHeap.{PlainHeap, HasEnds};
ghost use Rattle.njs_clone.specs.StandsFor.{GoByContent, OutlivesTexts, plain_objects};
ghost use Rattle.njs_clone.specs.Walks.{WalksEnd, ChainsEnd};

/// Every operation on objects goes by the content of texts alone, and not by their numbers: a machine stands for objects
/// whose values are by content, and each call gives there what it gives on these.
pub fn operations_go_by_content()
    ensures { (heap : Heap) → GoByContent heap }
{}

/// A new text changes nothing of the objects by content.
pub fn new_texts_change_no_object()
    ensures { (heap : Heap) → FitsHeap heap → OutlivesTexts heap }
{}

/// Every chain ends in a heap of objects by content and of scopes with names, where it does in the heap with numbered texts
/// and slots that stands for it.
pub fn ends_go_by_content()
    ensures { (heap : Heap) (plain : PlainHeap) → shared.HasEnds heap → plain.objects ≡ plain_objects heap → map (λ s. s.parent) plain.scopes ≡ map (λ s. s.parent) heap.scopes → HasEnds plain }
{}

/// A walk along prototypes, bound functions or scopes takes at most as many steps as there are objects or scopes. Where every
/// chain ends that is enough: more steps find nothing more, so that no walk stops before its chain does.
pub fn walks_come_to_their_ends()
    ensures plain { (heap : PlainHeap) → HasEnds heap → WalksEnd heap }
    ensures numbered { (heap : Heap) → shared.HasEnds heap → ChainsEnd heap }
{}
