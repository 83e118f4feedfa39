//! The frames that a method's StackMapTable gives, by place (JVM Specification SE 8, 4.7.4).
ghost use Rattle.std.specs.Prelude.{◌≡◌, List, ℤ, pos, ◌+ℤ◌};
ghost use Rattle.bytecode_model.specs.Lists.{natural};
ghost use Rattle.bytecode_typing.specs.Types as typing;
ghost use Rattle.verifier_types.specs.Frame.{frame_at_seen};
ghost use Rattle.bytecode_verifier.specs.Maps.{frames_at, frame_over};

use verifier_types::TypeFrame;

/// The frames by the places of the code. What the types of their local variables are is told with the lists that they refer to.
#[derive(Drop)]
pub struct MapFrames {
    pub by_place: Vec<Option<TypeFrame>>,
}

/// The frame at a place, if one stands there.
pub fn frame_at(maps: &MapFrames, place: u64) -> Option<&TypeFrame>
    ensures { (ls : List (List typing.VarType)) → frame_at_seen ls result ≡ frames_at ls maps.now place }
{
    if place < maps.by_place.len() as u64 {
        maps.by_place[place as usize].as_ref()
    } else {
        None
    }
}

/// The frame at the target of a branch from a place over an offset.
pub fn target_of(maps: &MapFrames, place: u32, offset: i32) -> Option<&TypeFrame>
    ensures { (ls : List (List typing.VarType)) → frame_at_seen ls result ≡ frame_over ls maps.now (natural (pos place +ℤ offset)) }
{
    let target = i64::from(place) + i64::from(offset);
    match u64::try_from(target) {
        Ok(target) => frame_at(maps, target),
        Err(_) => None,
    }
}
