//! Laws that tie the definitions of this crate: functions with an empty body, whose clauses are the laws.
ghost use Rattle.std.specs.Prelude.{◌≡◌, ◌≢◌, ◌&&◌, ◌↔◌, List, AllPairs, Contains};
ghost use Rattle.row_select.specs.Filters.{all_hold, hold_unweighed, hold_weighed};
ghost use Rattle.row_select.specs.Pages.{IsTop};
ghost use Rattle.row_select.specs.declared.filter.Filter.{Filter};
ghost use Rattle.row_select.specs.declared.order.Order.{Order};
ghost use Rattle.row_select.specs.declared.page.Page.{Page};
ghost use Rattle.row_select.specs.declared.row.Row.{Row};

/// Rows of which no two have one id have one page, whatever the order in which they are listed.
pub fn a_page_is_one_list()
    ensures { (rows others : List Row) (order : Order) (page : Page) (shown other : List Row) → AllPairs (λ row later. row.id ≢ later.id) rows → AllPairs (λ row later. row.id ≢ later.id) others → ((row : Row) → Contains rows row ↔ Contains others row) → IsTop rows order page shown → IsTop others order page other → shown ≡ other }
{}

/// Conditions may be asked in two parts: all hold where those hold that are on the weight and those that aren't. Of the latter it
/// doesn't matter which weight a row has, and of the former what else it has.
pub fn conditions_hold_in_two_parts()
    ensures all { (filters : List Filter) (row : Row) → all_hold filters row ≡ (hold_unweighed filters row && hold_weighed filters row) }
    ensures any_weight { (filters : List Filter) (row other : Row) → row.id ≡ other.id → row.values ≡ other.values → hold_unweighed filters row ≡ hold_unweighed filters other }
    ensures by_weight { (filters : List Filter) (row other : Row) → row.weight ≡ other.weight → hold_weighed filters row ≡ hold_weighed filters other }
{}
