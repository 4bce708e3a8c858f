//! The calls of `bg_strategy`.

use crate::asking::made;
use crate::stop::Stop;
use bg_strategy::{ServiceName, Strategy};
use bg_strategy_text::read;
use std::alloc::Global;

/// A document that gives many fields, of each kind.
const MANY_FIELDS: &str =
    "{\"spec\": {\"replicas\": 3, \"revisionHistoryLimit\": 4, \"strategy\": {\"blueGreen\": {\"activeService\": \"web\", \"previewService\": \"web-preview\", \"previewReplicaCount\": 2, \"autoPromotionEnabled\": false, \"autoPromotionSeconds\": 5, \"scaleDownDelaySeconds\": 6, \"scaleDownDelayRevisionLimit\": 7, \"abortScaleDownDelaySeconds\": 8, \"drainLimitSeconds\": 9, \"prePromotionAnalysis\": {\"templates\": []}, \"postPromotionAnalysis\": {}}}}}";

/// Two replicas, and no preview service.
pub const BASE: &str =
    "{\"spec\": {\"replicas\": 2, \"strategy\": {\"blueGreen\": {\"activeService\": \"web\"}}}}";

pub fn make_calls<R: AllocGlobal + Print + Eprint>(rt: &R) -> Result<(), Stop> {
    make_names(rt)?;
    make_strategies(rt)
}

fn make_names<R: AllocGlobal + Print + Eprint>(rt: &R) -> Result<(), Stop> {
    let name = make_name(rt)?;
    let copy = copy_of_name(rt, &name)?;
    show_names(rt, &name, &copy)
}

fn show_names<R: Print>(rt: &R, name: &ServiceName, copy: &ServiceName) -> Result<(), Stop> {
    println!(rt; "{} {}", name.get(), copy.get())?;
    Ok(())
}

fn make_name<R: AllocGlobal + Print + Eprint>(rt: &R) -> Result<ServiceName, Stop> {
    made(rt, "ServiceName::new", || new_name(rt.alloc()))
}

fn new_name(alloc: Global) -> Result<ServiceName, Stop> {
    Ok(ServiceName::new(alloc, "web")?)
}

fn copy_of_name<R: Print + Eprint>(rt: &R, name: &ServiceName) -> Result<ServiceName, Stop> {
    made(rt, "ServiceName::clone", || clone_name(name))
}

fn clone_name(name: &ServiceName) -> Result<ServiceName, Stop> {
    Ok(name.clone()?)
}

fn make_strategies<R: AllocGlobal + Print + Eprint>(rt: &R) -> Result<(), Stop> {
    let strategy = strategy_of(rt, MANY_FIELDS)?;
    let copy = copy_of(rt, &strategy)?;
    show_services(rt, &strategy)?;
    show_services(rt, &copy)
}

/// Prints the services of a strategy. Its other settings take no memory.
fn show_services<R: Print>(rt: &R, strategy: &Strategy) -> Result<(), Stop> {
    let active = strategy.active_service.get();
    println!(rt; "strategy {active} {:?}", strategy.preview_service)?;
    Ok(())
}

/// The strategy of the books: two replicas, and no preview service.
pub fn base_strategy<R: AllocGlobal + Print + Eprint>(rt: &R) -> Result<Strategy, Stop> {
    strategy_of(rt, BASE)
}

/// The strategy of a document.
pub fn strategy_of<R: AllocGlobal + Print + Eprint>(rt: &R, text: &str) -> Result<Strategy, Stop> {
    made(
        rt,
        "bg_strategy_text::read",
        || read_strategy(rt.alloc(), text),
    )
}

fn read_strategy(alloc: Global, text: &str) -> Result<Strategy, Stop> {
    Ok(read(alloc, text.as_bytes())?)
}

fn copy_of<R: Print + Eprint>(rt: &R, strategy: &Strategy) -> Result<Strategy, Stop> {
    made(rt, "Strategy::clone", || clone_strategy(strategy))
}

fn clone_strategy(strategy: &Strategy) -> Result<Strategy, Stop> {
    Ok(strategy.clone()?)
}
