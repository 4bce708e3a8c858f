//! The file of the control socket.

use bg_sockets::begin_to_listen;
use std::alloc::Global;
use std::fs::{Permissions, remove_file, set_permissions, symlink_metadata};
use std::io::ErrorKind;
use std::net::Net;
use std::os::fd::{AsFd, OwnedFd};
use std::os::unix::fs::{FileTypeExt, MetadataExt, PermissionsExt, chown};
use std::os::unix::net::{SocketAddr, UnixListener, UnixStream};
use std::rt::Files;
use std::{fmt, io};

/// How the file of a control socket is made. Who may write to the file may connect (unix(7)).
#[derive(Clone, Copy, Debug, Drop)]
pub struct SocketSettings<'a> {
    pub path: &'a str,
    /// The mode of the file, as chmod(2) takes it.
    pub mode: u32,
    /// The number of the group of the file; `None` leaves that of the process.
    pub group: Option<u32>,
}

/// Why a control socket cannot be bound.
#[derive(Debug, Drop)]
pub enum SocketFault {
    /// There is a file with this path already, and it is no socket.
    NoSocket,
    /// A process listens at the socket with this path.
    InUse,
    /// A system call or an allocation failed, or the path is too long: it may have 107 bytes.
    Failed(io::Error),
}

impl fmt::Display for SocketFault {
    fn fmt<W: fmt::Write>(&self, f: &mut fmt::Formatter<W>) -> fmt::Result {
        match self {
            SocketFault::NoSocket => write!(f, "there is a file that is no socket"),
            SocketFault::InUse => write!(f, "a process listens there"),
            SocketFault::Failed(reason) => write!(f, "{reason}"),
        }
    }
}

impl From<io::Error> for SocketFault {
    fn from(reason: io::Error) -> SocketFault {
        SocketFault::Failed(reason)
    }
}

/// The file of a control socket.
#[derive(Debug, Drop)]
pub struct SocketFile {
    path: String,
    /// Which file it is: another process may have made another one with the same path since.
    device: u64,
    inode: u64,
}

impl SocketFile {
    /// Makes the file, and listens at it. A socket with this path at which nobody listens is removed before: an earlier run
    /// has left it. The file has its mode and its group before anybody can connect. The errors are `NoSocket` and `InUse`,
    /// and `Failed` if a system call or an allocation fails.
    pub fn listen<R: Files + Net>(
        rt: &R,
        alloc: Global,
        settings: &SocketSettings,
    ) -> Result<(UnixListener, SocketFile), SocketFault> {
        let path = settings.path;
        remove_left_behind(rt, path)?;
        let listener = bound(rt, path)?;
        match made_file(rt, alloc, settings) {
            Ok(file) => {
                begin_to_listen(&listener)?;
                Ok((UnixListener::from(listener), file))
            }
            Err(reason) => {
                let _ = remove_file(rt, path);
                Err(SocketFault::Failed(reason))
            }
        }
    }

    /// Removes the file, unless another one has taken its place.
    pub fn remove<R: Files>(&self, rt: &R) {
        if let Ok(found) = symlink_metadata(rt, self.path.as_str())
            && found.dev() == self.device
            && found.ino() == self.inode
        {
            let _ = remove_file(rt, self.path.as_str());
        }
    }
}

/// Removes a socket with this path at which nobody listens.
fn remove_left_behind<R: Files + Net>(rt: &R, path: &str) -> Result<(), SocketFault> {
    let found = match symlink_metadata(rt, path) {
        Ok(found) => found,
        Err(reason) if reason.kind() == ErrorKind::NotFound => return Ok(()),
        Err(reason) => return Err(SocketFault::Failed(reason)),
    };
    if !found.file_type().is_socket() {
        return Err(SocketFault::NoSocket);
    }
    match UnixStream::connect(rt, path) {
        Ok(_stream) => Err(SocketFault::InUse),
        Err(reason) if reason.kind() == ErrorKind::ConnectionRefused => {
            remove_file(rt, path)?;
            Ok(())
        }
        Err(reason) => Err(SocketFault::Failed(reason)),
    }
}

/// A socket that is bound to this path, which makes the file.
fn bound<R: Files + Net>(rt: &R, path: &str) -> io::Result<OwnedFd> {
    let address = SocketAddr::from_pathname(path)?;
    let socket = rt.unix_socket()?;
    rt.bind_unix(socket.as_fd(), &address)?;
    Ok(socket)
}

/// Gives the file that was made its group and its mode.
fn made_file<R: Files>(rt: &R, alloc: Global, settings: &SocketSettings) -> io::Result<SocketFile> {
    let SocketSettings { path, mode, group } = *settings;
    if group.is_some() {
        chown(rt, path, None, group)?;
    }
    set_permissions(rt, path, Permissions::from_mode(mode))?;
    let found = symlink_metadata(rt, path)?;
    Ok(SocketFile {
        path: String::from_str(alloc, path)?,
        device: found.dev(),
        inode: found.ino(),
    })
}
