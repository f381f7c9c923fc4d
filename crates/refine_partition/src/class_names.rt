//! The names of classes.

ghost use Rattle.std.specs.Prelude.{◌≡◌, ◌≢◌, ℕ, Some, None, OnOk};
ghost use Rattle.refine_partition.specs.ClassNames.{class_name, table_name, named_among};

use base_kit::NoMemory;
use std::alloc::Global;
use std::collections::HashMap;

// So many classes are named in a list before there is a table.
const FEW: usize = 8;

/// The names of classes. A few stand in a list, which is looked through, and more in a table.
#[derive(Drop)]
pub struct ClassNames<V> {
    alloc: Global,
    few: Vec<(usize, V)>,
    table: Option<HashMap<usize, V>>,
}

impl<V: Copy + Drop> ClassNames<V> {
    /// No class has a name.
    pub fn new(alloc: Global) -> Self
        ensures { (class : ℕ) → class_name result class ≡ None }
    {
        ClassNames {
            alloc,
            few: Vec::new(alloc),
            table: None,
        }
    }

    /// No class has a name any more.
    pub fn clear(&mut self)
        ensures { (class : ℕ) → class_name self.new class ≡ None }
    {
        self.few.clear();
        self.table = None;
    }

    fn name_among_few(&self, class: usize) -> Option<V>
        ensures { result ≡ named_among class self.now.few.items None }
    {
        let mut found = None;
        for pair in &self.few {
            if pair.0 == class {
                found = Some(pair.1);
            }
        }
        found
    }

    fn name_in_table(&self, class: usize) -> Option<V>
        ensures { result ≡ table_name self.now.table class }
    {
        match &self.table {
            Some(table) => table.get(&class).copied(),
            None => None,
        }
    }

    /// The name of a class.
    pub fn name(&self, class: usize) -> Option<V>
        ensures { result ≡ class_name self.now class }
    {
        match self.name_in_table(class) {
            Some(name) => Some(name),
            None => self.name_among_few(class),
        }
    }

    /// Gives the class this name.
    pub fn put(&mut self, class: usize, name: V) -> Result<(), NoMemory>
        ensures named { OnOk result (class_name self.new class ≡ Some name) }
        ensures others { OnOk result ((other : ℕ) → other ≢ class → class_name self.new other ≡ class_name self.old other) }
    {
        if let Some(table) = &mut self.table {
            table.insert(class, name)?;
            return Ok(());
        }
        if self.few.len() < FEW {
            self.few.push((class, name))?;
            return Ok(());
        }
        let mut table = HashMap::new(self.alloc);
        table.insert(class, name)?;
        self.table = Some(table);
        Ok(())
    }
}
