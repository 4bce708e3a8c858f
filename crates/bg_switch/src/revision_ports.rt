//! The ports of the revisions, by which a directory of endpoints knows which ports belong together.
ghost use Rattle.std.specs.Prelude.{◌≡◌, [], ◌∷◌, ◌++◌, IfOk, MatchResult, OnOk};
ghost use Rattle.bg_endpoints.specs.Lists.{listed};
ghost use Rattle.bg_switch.specs.RevisionLists.{AreListsOf, is_in_use, ports_in_use, shown_lists};

use crate::context::ServeContext;
use bg_book::{Book, Desk, Question};
use bg_endpoints::{Directory, PortList, PortLists};
use bg_ledger::Names;
use bg_revisions::Revision;
use bg_script::MarksDown;
use std::alloc::{AllocError, Global};
use std::sync::Wait;

/// Gives the directory, if there is one, the ports of each revision that is in use. If an allocation fails, it gets
/// no lists, so that each request is then dialled at its own port alone.
pub fn update_directory<N: Names, R: Wait>(context: &ServeContext<R>, desk: &Desk<N>) {
    if let Some(directory) = context.directory {
        let question = PortsOfRevisions {
            alloc: context.alloc,
        };
        let answer = desk.look(context.rt, question);
        directory.set(context.rt, lists_or_none(answer, context.alloc));
    }
}

/// These lists; none if an allocation failed.
fn lists_or_none(answer: Result<PortLists, AllocError>, alloc: Global) -> PortLists
    ensures { MatchResult answer (λ lists. result ≡ lists) (λ _. listed result ≡ []) }
{
    match answer {
        Ok(lists) => lists,
        Err(_) => PortLists::new(alloc),
    }
}

/// Asks for the ports of each revision of which endpoints are desired or requests are open, in ascending order of the
/// numbers. The processes of all others have been stopped, so that their ports may be those of another revision. The
/// only error is an allocation failure.
#[derive(Drop)]
struct PortsOfRevisions {
    alloc: Global,
}

impl Question<Result<PortLists, AllocError>> for PortsOfRevisions {
    ghost use Rattle.std.specs.Prelude.{IfOk};
    ghost use Rattle.bg_switch.specs.RevisionLists.{AreListsOf};

    ghost gives = { λ _ book lists. IfOk lists (AreListsOf book) };

    fn ask<N: Names>(self, book: &Book<N>) -> Result<PortLists, AllocError> {
        lists_in(self.alloc, book)
    }
}

/// The lists of the revisions of a book that are in use.
fn lists_in<N: Names>(alloc: Global, book: &Book<N>) -> Result<PortLists, AllocError>
    ensures { IfOk result (AreListsOf book.now) }
{
    let mut lists = PortLists::new(alloc);
    for place in 0..book.count() {
        if let Some(revision) = book.revision(place) {
            add_if_in_use(&mut lists, alloc, book, revision)?;
        }
    }
    Ok(lists)
}

/// Adds the list of a revision, if it is in use.
fn add_if_in_use<N: Names>(
    lists: &mut PortLists,
    alloc: Global,
    book: &Book<N>,
    revision: &Revision,
) -> Result<(), AllocError>
    ensures { OnOk result (shown_lists lists.new
        ≡ shown_lists lists.old ++ ports_in_use book.now (revision.now ∷ [])) }
{
    if is_in_use(book, revision) {
        lists.add(PortList::new(alloc, revision.ports.get(), revision.available as usize)?)?;
    }
    Ok(())
}

/// Whether endpoints of a revision are desired, or requests are open there.
fn is_in_use<N: Names>(book: &Book<N>, revision: &Revision) -> bool
    ensures { result ≡ is_in_use book.now revision.now }
{
    revision.desired > 0 || book.open_count(revision.number) > 0
}

/// Takes the ports of a line `down`. Without a directory, the line has no effect.
#[derive(Drop)]
pub struct DownPorts<'a, R: Wait> {
    /// The handle with which the directory's lock is taken.
    pub rt: &'a R,
    pub alloc: Global,
    pub directory: Option<&'a Directory>,
}

impl<R: Wait> MarksDown for DownPorts<'_, R> {
    fn set_down(&self, ports: &[u16]) -> Result<(), AllocError> {
        if let Some(directory) = self.directory {
            directory.set_down(self.rt, ports.to_vec(self.alloc)?);
        }
        Ok(())
    }
}
