//! Small stories of rings, by computation: each function here is a theorem, and does nothing.
ghost use Rattle.std.specs.Prelude.{◌≡◌, [], ◌∷◌, true, false, map};
ghost use Rattle.vhost_backend.specs.Backend.{after_finish};
ghost use Rattle.vhost_backend.specs.Examples.{base_asked, one_busy_ring, outcomes, table_sent};
ghost use Rattle.vhost_backend.specs.Messages.{after, all_to_do, ring_actions};
ghost use Rattle.vhost_backend.specs.Ring.{new_ring};
ghost use Rattle.vhost_backend.specs.Rings.{new_rings};
ghost use Rattle.vhost_backend.specs.Story.{On, Turn, actions};
ghost use Rattle.vhost_backend.specs.Turns.{all_done, turns};
ghost use Rattle.vhost_backend.specs.Turns as turn;
ghost use Rattle.vhost_backend.specs.declared.backend.Finish.TheVariants.{At};
ghost use Rattle.vhost_backend.specs.declared.backend.Next.TheVariants.{Messages};
ghost use Rattle.vhost_backend.specs.declared.backend.Outcome.TheVariants.{Begins, Stays};
ghost use Rattle.vhost_backend.specs.declared.request.PartEnd.TheVariants.{Failed, Moved};
ghost use Rattle.vhost_backend.specs.declared.ring.RingEvent.TheVariants.{Break, Emptied, Enable, Ended, Kick, Popped};
ghost use Rattle.vhost_backend.specs.declared.ring.RingEvent.TheVariants.{Start, Stop};
ghost use Rattle.vhost_backend.specs.declared.ring.actions.RingAction.TheVariants as action;
ghost use Rattle.vhost_backend.specs.declared.rings.Event.TheVariants as event;

/// A request of two parts is under way as its ring is stopped. Both parts are served, the chain is returned, the driver
/// is told, and then the message is answered. A second chain is not popped meanwhile.
pub fn a_stop_waits_for_both_parts()
    ensures { actions (On Start ∷ On (Enable true) ∷ Turn ∷ On (Popped (record { id = 2; slots = 1 }) 2 8192) ∷ On Stop
        ∷ On (Popped (record { id = 3; slots = 1 }) 1 512) ∷ On (Ended 2 (Moved 4096)) ∷ On (Ended 2 (Moved 4096)) ∷ [])
        (new_ring 4)
        ≡ action.Pop ∷ action.Serve 2 2 ∷ action.Serve 2 1 ∷ action.Return (record { id = 2; slots = 1 }) 8192 false
        ∷ action.Notify ∷ action.Stopped ∷ [] }
{}

/// A disabled ring returns what is under way. A part that failed is the last one, and its end counts once.
pub fn a_disabled_ring_returns_its_chains()
    ensures { actions (On Start ∷ On (Enable true) ∷ On (Popped (record { id = 1; slots = 3 }) 5 0) ∷ On (Enable false)
        ∷ On (Ended 1 (Moved 7)) ∷ On (Ended 1 Failed) ∷ On (Ended 1 Failed) ∷ Turn ∷ []) (new_ring 4)
        ≡ action.Serve 1 5 ∷ action.Serve 1 4 ∷ action.Return (record { id = 1; slots = 3 }) 7 true
        ∷ action.Notify ∷ [] }
{}

/// A second chain of an id breaks its ring. The first one is returned all the same, and so is one whose request has no
/// parts.
pub fn two_chains_of_an_id_break_a_ring()
    ensures { actions (On Start ∷ On (Enable true) ∷ On (Popped (record { id = 0; slots = 1 }) 1 0)
        ∷ On (Popped (record { id = 1; slots = 1 }) 0 0) ∷ On (Popped (record { id = 0; slots = 1 }) 1 0)
        ∷ On (Ended 0 (Moved 1)) ∷ []) (new_ring 4)
        ≡ action.Serve 0 1 ∷ action.Return (record { id = 1; slots = 1 }) 0 false ∷ action.Broke
        ∷ action.Return (record { id = 0; slots = 1 }) 1 false ∷ [] }
{}

/// Two rings that always have chains take turns. One that is empty has none until its driver notifies.
pub fn two_rings_take_turns()
    ensures { turns (event.Ring 0 Start ∷ event.Ring 0 (Enable true) ∷ event.Ring 1 Start ∷ event.Ring 1 (Enable true)
        ∷ event.GoOn ∷ event.GoOn ∷ event.GoOn ∷ event.Ring 0 Emptied ∷ event.GoOn ∷ event.GoOn ∷ event.Ring 0 Kick
        ∷ event.GoOn ∷ event.GoOn ∷ []) (new_rings 2 4) ≡ 0 ∷ 1 ∷ 0 ∷ 1 ∷ 1 ∷ 1 ∷ 0 ∷ [] }
{}

/// A ring that breaks in its turn, is stopped and is started again pops nothing before its next turn.
pub fn a_stop_ends_a_turn()
    ensures { turn.popped (event.Ring 0 Start ∷ event.Ring 0 (Enable true) ∷ event.GoOn ∷ event.Ring 0 Break
        ∷ event.Ring 0 Stop ∷ event.Ring 0 Start ∷ event.Ring 0 (Popped (record { id = 0; slots = 1 }) 1 512)
        ∷ event.GoOn ∷ event.Ring 0 (Popped (record { id = 1; slots = 1 }) 1 1024) ∷ []) (new_rings 1 4) ≡ 1024 ∷ [] }
{}

/// A turn is over after a chain that asks for 1 MiB, and a ring pops nothing in the turn of another one.
pub fn a_turn_ends_after_a_mebibyte()
    ensures { turn.popped (event.Ring 0 Start ∷ event.Ring 0 (Enable true) ∷ event.Ring 1 Start
        ∷ event.Ring 1 (Enable true) ∷ event.GoOn ∷ event.Ring 1 (Popped (record { id = 0; slots = 1 }) 1 512)
        ∷ event.Ring 0 (Popped (record { id = 0; slots = 1 }) 1 0x100000)
        ∷ event.Ring 0 (Popped (record { id = 1; slots = 1 }) 1 512) ∷ event.GoOn
        ∷ event.Ring 1 (Popped (record { id = 0; slots = 1 }) 1 512) ∷ []) (new_rings 2 4) ≡ 0x100000 ∷ 512 ∷ [] }
{}

/// A message that holds all rings waits for what is under way, and then it is to be done. Meanwhile no ring has a turn.
pub fn a_hold_waits_for_what_is_under_way()
    ensures { map (λ done. done.held) (all_done (event.Ring 0 Start ∷ event.Ring 0 (Enable true) ∷ event.GoOn
        ∷ event.Ring 0 (Popped (record { id = 2; slots = 1 }) 1 512) ∷ event.Hold ∷ event.GoOn
        ∷ event.Ring 0 (Popped (record { id = 3; slots = 1 }) 1 512) ∷ event.Ring 0 (Ended 2 (Moved 512))
        ∷ event.Release ∷ []) (new_rings 2 4))
        ≡ false ∷ false ∷ false ∷ false ∷ false ∷ false ∷ false ∷ true ∷ false ∷ [] }
{}

/// A message that asks for the base of a ring waits for a request that is under way, and takes effect after that was
/// returned and the driver told. The base is replied when it is known.
#[tactic(auto, unfolding(vhost_message::specs::FrontendReq::vring_request_in))]
pub fn a_base_is_replied_after_all_requests()
    ensures waits { outcomes (all_to_do base_asked (one_busy_ring 512)) ≡ Stays ∷ Begins ∷ [] }
    ensures done { ring_actions 0 (all_to_do base_asked (one_busy_ring 512))
        ≡ action.Return (record { id = 2; slots = 1 }) 512 false ∷ action.Notify ∷ action.Stopped ∷ [] }
    ensures reply { (after_finish (after base_asked (one_busy_ring 512)) (At 5)).1
        ≡ (11 ∷ 0 ∷ 0 ∷ 0 ∷ 5 ∷ 0 ∷ 0 ∷ 0 ∷ 8 ∷ 0 ∷ 0 ∷ 0 ∷ 0 ∷ 0 ∷ 0 ∷ 0 ∷ 5 ∷ 0 ∷ 0 ∷ 0 ∷ [], Messages) }
{}

/// A new table of memory, which is empty here, takes effect after that request, too, and no chain is popped before
/// that.
#[tactic(auto, unfolding(vhost_message::specs::Regions::table_in))]
pub fn a_table_waits_for_all_requests()
    ensures waits { outcomes (all_to_do table_sent (one_busy_ring 512)) ≡ Stays ∷ Stays ∷ Begins ∷ [] }
    ensures done { ring_actions 0 (all_to_do table_sent (one_busy_ring 512))
        ≡ action.Return (record { id = 2; slots = 1 }) 512 false ∷ [] }
{}
