//! Keepers and the porter take their posts, and leave them.

ghost use Rattle.std.specs.Prelude.{◌≡◌, ◌<◌, ◌≤◌, ◌+◌, ◌++◌, ◌^◌, [], List, length, map, vec_len, vec_capacity, IfOk};
ghost use Rattle.caster_keep.specs.Stations.{consoles_in, gates_in, hand_at, posted};

use crate::duty::Duty;
use crate::keeper::Keeper;
use crate::post::{AtPost, Post};
use cast_config::Config;
use cast_io::Gate;
use caster_seats::{AtPlaces, SeatedCaller};
use std::alloc::{AllocError, Global};
use std::sync::Wait;

/// Room for posts of so many keepers and one at the console, which are one list, and for the one at
/// the console once it has left that.
pub(crate) fn room_for_posts<A, B>(
    alloc: Global,
    keepers: usize,
) -> Result<(Vec<Duty<A, B>>, Vec<B>), AllocError>
    requires few { keepers + 1 < 2 ^ 64 }
    ensures empty { IfOk result (λ room. (room.0.items ≡ []) × (room.1.items ≡ [])) }
    ensures room { IfOk result (λ room. (keepers + 1 ≤ vec_capacity room.0)
        × (1 ≤ vec_capacity room.1)) }
{
    let posts = Vec::with_capacity(alloc, keepers + 1)?;
    match Vec::with_capacity(alloc, 1) {
        Ok(booths) => Ok((posts, booths)),
        Err(AllocError) => {
            posts.destroy_empty();
            Err(AllocError)
        }
    }
}

/// Puts each of these callers at its post, behind those that were put before.
pub(crate) fn take_posts<'a, G: Gate, B, R: Wait + Sync>(
    alloc: Global,
    config: &'a Config,
    table: &'a [u8],
    hands: &mut Vec<SeatedCaller<'a, Keeper<G>, R>>,
    posts: &mut Vec<Duty<Post<'a, G, R>, B>>,
)
    requires room { vec_len posts.old + length hands.old.items ≤ vec_capacity posts.old }
    ensures posts { (more : List _)
        × (posts.new.items ≡ posts.old.items ++ map (λ post. Duty.Gate post) more)
        × (map ⟦<Post<'a, G, R> as AtPost<G>>⟧.told more
        ≡ map (posted config.now table.now)
        (map ⟦<SeatedCaller<'a, Keeper<G>, R> as AtPlaces<Keeper<G>>>⟧.told hands.old.items)) }
    ensures taken { hands.new.items ≡ [] }
    ensures space { vec_capacity hands.old ≤ vec_capacity hands.new }
    ensures count { vec_len posts.new ≡ vec_len posts.old + length hands.old.items }
    ensures capacity { vec_capacity posts.old ≤ vec_capacity posts.new }
{
    let Some(hand) = hands.pop() else {
        return;
    };
    take_posts(alloc, config, table, hands, posts);
    posts.push_reserved(Duty::Gate(Post::new(alloc, config, table, hand)));
}

/// Takes each of these from its post: the callers at gates come to the one list, and those at
/// the console to the other, in order.
pub(crate) fn leave_posts<'a, G: Gate, B, R: Wait + Sync>(
    mut posts: Vec<Duty<Post<'a, G, R>, B>>,
    hands: &mut Vec<SeatedCaller<'a, Keeper<G>, R>>,
    booths: &mut Vec<B>,
)
    requires room { vec_len hands.old + length (gates_in posts.items) ≤ vec_capacity hands.old }
    requires place { vec_len booths.old + length (consoles_in posts.items)
        ≤ vec_capacity booths.old }
    ensures hands { map ⟦<SeatedCaller<'a, Keeper<G>, R> as AtPlaces<Keeper<G>>>⟧.told
        hands.new.items
        ≡ map ⟦<SeatedCaller<'a, Keeper<G>, R> as AtPlaces<Keeper<G>>>⟧.told hands.old.items
        ++ map hand_at (map ⟦<Post<'a, G, R> as AtPost<G>>⟧.told (gates_in posts.entry.items)) }
    ensures booths { booths.new.items ≡ booths.old.items ++ consoles_in posts.entry.items }
    ensures count { vec_len hands.new ≡ vec_len hands.old + length (gates_in posts.entry.items) }
    ensures capacity { vec_capacity hands.old ≤ vec_capacity hands.new }
    ensures booth_count { vec_len booths.new
        ≡ vec_len booths.old + length (consoles_in posts.entry.items) }
    ensures booth_capacity { vec_capacity booths.old ≤ vec_capacity booths.new }
{
    let Some(last) = posts.pop() else {
        posts.destroy_empty();
        return;
    };
    leave_posts(posts, hands, booths);
    match last {
        Duty::Gate(post) => hands.push_reserved(post.into_hand()),
        Duty::Console(booth) => booths.push_reserved(booth),
    }
}
