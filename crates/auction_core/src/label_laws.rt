//! Laws of the labels of the components on air: what they say of a test's set, and of the same station's test one round before.
//! Each function is empty; its clauses are the law.

ghost use Rattle.std.specs.Prelude.{◌≡◌, ◌∷◌, ◌-◌, ◌≤◌, ◌==◌, ◌&&◌, ◌||◌, ℕ, List, None, Contains, false};
ghost use Rattle.pack_defs.specs.Book.{BookView};
ghost use Rattle.pack_defs.specs.Components.{component};
ghost use Rattle.pack_defs.specs.Lists.{is_in};
ghost use Rattle.pack_defs.specs.declared.scenario.Scenario.{Scenario};
ghost use Rattle.pack_defs.specs.Scenario.{facilities};
ghost use Rattle.pack_defs.specs.ClockRule.{ClockState, ClockTest, is_on_air, opening_state};
ghost use Rattle.auction_core.specs.ComponentLabels.{AreComponents, AreLabelsOf, IsWithOneMore, ComponentLabelsView, touched_set, touches};
ghost use Rattle.auction_core.specs.Rule.{IsAuction, KeepsTheRule};
ghost use Rattle.auction_core.specs.State.{CoreState, set_in, tested_set};
ghost use Rattle.auction_core.specs.LabelLaws.{LabelsGrow, LabelsTellLastChange, SameWhereAllWereOnAir, SameIfNoLabelChanged, LabelsFollowClock};

/// A test asks about its station and the stations on air whose labels the station touches.
pub fn prove_labels_give_set()
    ensures { (book : BookView) (on all : List ℕ) (since label : ℕ → ℕ) (s z : ℕ) → AreComponents book on since label → IsWithOneMore on all s →
        is_in (component book all s) z ≡ ((z == s) || (is_in on z && touches book on label s (label z))) }
{}

/// The same by the labels of the components on air: a test of a station off air asks about the station and the stations on air
/// whose labels it touches.
pub fn prove_labels_give_set_off_air()
    ensures { (sc : Scenario) (book : BookView) (clock : ClockState) (s : ℕ) (component_labels : ComponentLabelsView) → IsAuction sc book → Contains (facilities sc) s →
        is_on_air clock s ≡ false → AreLabelsOf sc book clock component_labels → touched_set book component_labels s ≡ tested_set sc book clock s }
{}

/// When a station goes on air, its number becomes the label of the components that it touches, and the other labels stay.
pub fn prove_labels_grow()
    ensures { LabelsGrow }
{}

/// The other stations that a test asks about were all on air before some time if and only if the labels that its station
/// touches are before that time.
pub fn prove_labels_tell_last_change()
    ensures { LabelsTellLastChange }
{}

/// If no station left the air since an earlier test, a test asks about the same stations as that one if and only if each other
/// station was on air then.
pub fn prove_same_means()
    ensures { SameWhereAllWereOnAir }
{}

/// From round 2 on, the station of the current test was tested one round before, and the steps record what that test asked about.
pub fn prove_tested_one_round_before()
    ensures { (sc : Scenario) (book : BookView) (state : CoreState) (t : ClockTest) (rest : List ClockTest) → IsAuction sc book → KeepsTheRule sc book state →
        state.left ≡ t ∷ rest → 2 ≤ t.round → (set_in sc book (opening_state sc) state.steps (t.round - 1) t.station ≡ None) → ⊥ }
{}

/// From round 2 on: a test of an active station asks about the same stations as the one before if and only if the station touches
/// no component that changed since. The state is one that the clock rule reaches before this test.
pub fn prove_same_by_labels()
    ensures { SameIfNoLabelChanged }
{}

/// The labels follow the clock. When a station goes on air, its number is how many stations are then on air, and it merges the
/// components that it touches. The resulting labels are those of the clock's new state.
pub fn prove_labels_follow_clock()
    ensures { LabelsFollowClock }
{}
