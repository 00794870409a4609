//! What follows from the definitions alone.

ghost use Rattle.std.specs.Prelude.{◌≡◌, ℕ, ◌<◌, nat_eq, Bool, length, true, false, List, [], ◌∷◌, Some, take, slice_get};
ghost use Rattle.std.specs.List.{list_any};
ghost use Rattle.gw_board.specs.declared.profile.Profile.{Profile};
ghost use Rattle.gw_base.specs.declared.key.Key.{Key};
ghost use Rattle.gw_board.specs.Texts.{Text};
ghost use Rattle.gw_table.specs.Maps.{Maps};
ghost use Rattle.gw_table.specs.Unused.{AreUnused};
ghost use Rattle.gw_table.specs.WellFormed.{AreWellFormed};
ghost use Rattle.gw_board.specs.Boards.{Seen, Handed, core_of, Opens};
ghost use Rattle.gw_board.specs.Carried.{BurstRequest, keys_of, carried};
ghost use Rattle.gw_board.specs.Core.{Core, Job, Event, Events, MayDraw, start, pending, undrawn_at};
ghost use Rattle.gw_board.specs.Endings.{all_ended};
ghost use Rattle.gw_board.specs.Fitting.{FitsTogether};
ghost use Rattle.gw_board.specs.Chains.{Chained, requests_of, AreChains, GoesByChains};
ghost use Rattle.gw_board.specs.UndoLog.{undo_log_of, undone};
ghost use Rattle.gw_board.specs.Met.{IsRefused};
ghost use Rattle.gw_board.specs.Planned.{MayOpenEach};
ghost use Rattle.gw_board.specs.declared.fault.OpenFault.{OpenFault};
ghost use Rattle.gw_board.specs.declared.fault.OpenFault.TheVariants.{NoMemory};
ghost use Rattle.gw_board.specs.Results.{is_open_at, NothingIsOpen, AreClosed, carried_on, result_of, slots_of};
ghost use Rattle.gw_board.specs.Waves.{wave, is_pending, IsMet, MayOpenAll};

/// Whatever is opened, drawn and closed, in any lawful order: a state comes to the maps and replies of executing all
/// requests, one after another in the order of their places, on the tables of the start. So once nothing is open,
/// executing what is pending gives them, and once every place is closed they are there. It does not matter which
/// drawn jobs are closed with their results and which unchanged.
pub fn lawful_events_give_the_fold()
    ensures results { (profile : Profile) (workers : ℕ) (requested : List BurstRequest) (m : Maps) (s : Core) → AreWellFormed profile.rules.members m → AreUnused m [] (slots_of requested) → Events profile (start workers requested m) s → result_of profile s ≡ carried profile requested m }
    ensures nothing_open { (profile : Profile) (workers : ℕ) (requested : List BurstRequest) (m : Maps) (s : Core) → AreWellFormed profile.rules.members m → AreUnused m [] (slots_of requested) → Events profile (start workers requested m) s → NothingIsOpen s → carried_on profile s.places s.maps ≡ carried profile requested m }
    ensures all_ended { (profile : Profile) (workers : ℕ) (requested : List BurstRequest) (m : Maps) (s : Core) → AreWellFormed profile.rules.members m → AreUnused m [] (slots_of requested) → Events profile (start workers requested m) s → (choice : ℕ → Bool) → let end : Core = all_ended choice s in carried_on profile end.places end.maps ≡ carried profile requested m }
    ensures all_closed { (profile : Profile) (workers : ℕ) (requested : List BurstRequest) (m : Maps) (s : Core) → AreWellFormed profile.rules.members m → AreUnused m [] (slots_of requested) → Events profile (start workers requested m) s → (replies : List Text) → AreClosed s.places replies → record { maps = s.maps; answer = replies } ≡ carried profile requested m }
{}

/// The state at the start fits together; a lawful event leads from such a state to such a state, and leaves what it
/// comes to.
pub fn events_leave_what_a_state_comes_to()
    ensures start { (profile : Profile) (workers : ℕ) (requested : List BurstRequest) (m : Maps) → AreWellFormed profile.rules.members m → AreUnused m [] (slots_of requested) → FitsTogether profile (start workers requested m) }
    ensures fits { (profile : Profile) (s t : Core) → FitsTogether profile s → Event profile s t → FitsTogether profile t }
    ensures result { (profile : Profile) (s t : Core) → FitsTogether profile s → Event profile s t → result_of profile t ≡ result_of profile s }
{}

/// The open places are those that are listed in the order of opening. So while a job is open that is not drawn, each
/// worker may draw one.
pub fn open_jobs_may_be_drawn()
    ensures listed { (profile : Profile) (workers : ℕ) (requested : List BurstRequest) (m : Maps) (s : Core) → Events profile (start workers requested m) s → (i : ℕ) → list_any (nat_eq i) s.opened ≡ is_open_at (slice_get s.places i) }
    ensures drawn { (profile : Profile) (workers : ℕ) (requested : List BurstRequest) (m : Maps) (s : Core) → Events profile (start workers requested m) s → (worker i : ℕ) → worker < length s.lists → undrawn_at (slice_get s.places i) ≡ true → (k : ℕ) × (a : BurstRequest) × (j : Job) × MayDraw s worker k a j }
{}

/// All that is open may be closed, each drawn job with its result or unchanged, as one likes.
pub fn what_is_open_may_be_closed()
    ensures { (profile : Profile) (choice : ℕ → Bool) (s : Core) → Events profile s (all_ended choice s) × NothingIsOpen (all_ended choice s) }
{}

/// While nothing is open, the places of a wave may be opened in its order. A pending place that is left out meets an
/// earlier one that is pending, and the first pending place is in the wave.
pub fn waves_may_be_opened()
    ensures lawful { (s : Core) → NothingIsOpen s → MayOpenAll s (wave s) }
    ensures left_out { (s : Core) (i : ℕ) (a : BurstRequest) → slice_get s.places i ≡ Some (pending a) → list_any (nat_eq i) (wave s) ≡ false → (j : ℕ) × IsMet s (keys_of a s.maps) i j }
    ensures first { (s : Core) (i : ℕ) (a : BurstRequest) → slice_get s.places i ≡ Some (pending a) → list_any (λ p. is_pending p.standing) (take i s.places) ≡ false → list_any (nat_eq i) (wave s) ≡ true }
{}

/// Whatever was opened, drawn and closed: once nothing is open, the undo steps of the closed jobs, put over the maps
/// with the last one first, give the maps of the start.
pub fn undo_logs_give_the_tables_back()
    ensures { (profile : Profile) (workers : ℕ) (requested : List BurstRequest) (m : Maps) (s : Core) → AreWellFormed profile.rules.members m → AreUnused m [] (slots_of requested) → (events : Events profile (start workers requested m) s) → NothingIsOpen s → undone (undo_log_of events) s.maps ≡ m }
{}

/// While nothing is open on a board, the places of its wave may be opened one after another: so they still may after
/// each of them was, and `open` refuses none of them where there is memory.
pub fn planned_places_are_opened()
    ensures wave { (b : Seen) → NothingIsOpen (core_of b) → MayOpenEach b (wave (core_of b)) }
    ensures next { (b c : Seen) (i : ℕ) (later : List ℕ) (h : Handed) → MayOpenEach b (i ∷ later) → Opens b i h c → MayOpenEach c later }
    ensures refused { (b : Seen) (i : ℕ) (later : List ℕ) (fault : OpenFault) → MayOpenEach b (i ∷ later) → IsRefused b i fault → fault ≡ NoMemory }
{}

/// Requests in well-formed tables whose slots are distinct and unused, in chains no two of which share a key: executed
/// one after another, they do what each chain does by itself on the part that has its keys, whatever the chains' order;
/// entries at no chain's keys stay.
pub fn chains_go_side_by_side()
    ensures { (profile : Profile) (keys : ℕ → List Key) (m : Maps) (xs : List Chained) → AreWellFormed profile.rules.members m → AreUnused m [] (slots_of (requests_of xs)) → AreChains keys m xs → GoesByChains profile keys m xs }
{}
