//! What a host offers: the cells of the devices, read and written one at a time.
ghost use Rattle.std.specs.Prelude.{◌≡◌, is_some};
ghost use Rattle.runs.specs.Table as meant;
ghost use Rattle.runs.specs.Table.{Table};
ghost use Rattle.hosts.specs.Frames.{Frame};

/// A host means a table: for each device and resource a value, or no cell. Its frame outlasts every write.
pub trait Host {
    ghost table: { Self → Table };

    ghost frame: { Self → Frame };

    /// The value of a cell, or nothing where the device has no such cell.
    fn read(&self, device: u32, resource: u32) -> Option<i32>
        ensures { result ≡ table self.now device resource };

    /// Sets a cell that is there, alone, and answers yes; else alters nothing and answers no.
    fn write(&mut self, device: u32, resource: u32, value: i32) -> bool
        ensures written { table self.new ≡ meant.write (table self.old) device resource value }
        ensures answer { result ≡ is_some (table self.old device resource) }
        ensures kept { frame self.new ≡ frame self.old };
}
