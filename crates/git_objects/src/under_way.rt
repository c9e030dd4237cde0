//! Blobs that git is asked for.
ghost use Rattle.std.specs.Prelude.{◌≡◌, ◌++◌, ◌∷◌, ◌<◌, [], length, position, IfSome};
ghost use Rattle.std.specs.List.{list_any};
ghost use Rattle.git_objects.specs.UnderWay.{has_room, is_object, without};

use crate::desk::same_id;
use arrayvec::ArrayVec;

/// The objects that git is asked for: one at most by each thread that fetches, and none by two of them.
#[derive(Drop)]
pub(crate) struct UnderWay {
    pub objects: ArrayVec<[u8; 20], 8>,
}

impl UnderWay {
    /// Returns the state in which git is asked for nothing.
    pub(crate) fn new() -> UnderWay
        ensures nothing { result.objects.items ≡ [] }
    {
        UnderWay {
            objects: ArrayVec::new(),
        }
    }

    /// Returns whether git is asked for `object`.
    pub(crate) fn has(&self, object: &[u8; 20]) -> bool
        ensures has { result ≡ list_any (is_object object.now) self.now.objects.items }
    {
        self.objects
            .as_slice()
            .iter()
            .any(|other| same_id(other, object))
    }

    /// Returns whether one more object can be noted.
    pub(crate) fn has_room(&self) -> bool
        ensures room { result ≡ has_room self.now.objects.items }
    {
        !self.objects.is_full()
    }

    /// Notes that git is asked for `object`.
    pub(crate) fn begin(&mut self, object: [u8; 20])
        requires room { length self.old.objects.items < 8 }
        ensures objects { self.new.objects.items ≡ self.old.objects.items ++ object ∷ [] }
    {
        self.objects.push(object);
    }

    /// Notes that git was asked for `object`, and gave it or a fault.
    pub(crate) fn end(&mut self, object: &[u8; 20])
        ensures objects { self.new.objects.items ≡ without (position (is_object object.now) self.old.objects.items)
            self.old.objects.items }
    {
        if let Some(place) = place_of(self.objects.as_slice(), object) {
            let _ended = self.objects.remove(place);
        }
    }
}

/// Returns the place of `object`, if it is one of `objects`.
fn place_of(objects: &[[u8; 20]], object: &[u8; 20]) -> Option<usize>
    ensures place { result ≡ position (is_object object.now) objects.now }
    ensures within { IfSome result (λ i. i < length objects.now) }
{
    objects.iter().position(|other| same_id(other, object))
}
