// SPDX-License-Identifier: MIT
//! Reads a scene, and the files that it names.

use po_ada_command::open;
use po_ada_script::RunFault;
use po_ada_session::TextFile;
use po_scene::{MOST_OBJECTS, Scene, SceneFiles, faults_of, read_scene};
use std::rt::Files;

/// Reads a file that the scene names.
fn take<R: Files + AllocGlobal>(
    rt: &R,
    files: &mut SceneFiles,
    name: String,
) -> Result<(), RunFault> {
    let file = open(rt, name)?;
    match files.take(file) {
        Ok(()) => Ok(()),
        Err(_) => Err(RunFault::OutOfMemory),
    }
}

/// Reads the scene of these bytes. If it names a file, reads that, and begins anew. A scene names at most as many files as it has
/// objects.
fn scene_of<R: Files + AllocGlobal>(
    rt: &R,
    files: &mut SceneFiles,
    bytes: &[u8],
) -> Result<Scene, RunFault> {
    for _ in 0..MOST_OBJECTS {
        match read_scene(rt.alloc(), files, bytes) {
            Err(RunFault::Unread(name)) => take(rt, files, name)?,
            ended => return ended,
        }
    }
    read_scene(rt.alloc(), files, bytes)
}

/// Reads the file of this name, and the other, if there is one, which has the object that the scene doesn't name.
fn opened<R: Files + AllocGlobal>(
    rt: &R,
    name: String,
    unit: Option<String>,
) -> Result<(TextFile, SceneFiles), RunFault> {
    let given = match unit {
        Some(name) => Some(open(rt, name)?),
        None => None,
    };
    let file = open(rt, name)?;
    Ok((file, SceneFiles::new(rt.alloc(), given)))
}

/// Reads the scene of the file of this name. The other file, if there is one, has the object that the scene doesn't name.
pub(crate) fn read<R: Files + AllocGlobal>(
    rt: &R,
    name: String,
    unit: Option<String>,
) -> Result<Scene, RunFault> {
    let (file, mut files) = opened(rt, name, unit)?;
    scene_of(rt, &mut files, file.bytes())
}

/// Returns the lines that tell what is wrong with the scene in the file of this name: no text if nothing is.
pub(crate) fn check<R: Files + AllocGlobal>(
    rt: &R,
    name: String,
    unit: Option<String>,
) -> Result<String, RunFault> {
    let (file, mut files) = opened(rt, name, unit)?;
    match scene_of(rt, &mut files, file.bytes()) {
        Ok(_) | Err(RunFault::Line { .. }) => { faults_of(rt.alloc(), &mut files, file.bytes()) }
        Err(fault) => Err(fault),
    }
}
