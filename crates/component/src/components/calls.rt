#![tactic(auto, unfolding(crate::specs::Table::components_of, crate::specs::Table::joined, crate::specs::Table::count))]

ghost use Rattle.std.specs.Prelude.{◌≡◌, ℕ, ◌+◌, ◌-◌, ◌<◌, ◌≤◌, ◌&&◌, [], ◌∷◌, ◌++◌, length, is_some, is_ok, if◌then◌else◌, Some, None, ◌==◌, nat_eq};
ghost use Rattle.std.specs.Option.{option_map};
ghost use Rattle.component.specs.Table.{components_of, joined, count, add_answer, without_service, other_pids, other_services};

use crate::component::Component;
use crate::components::Components;
use crate::faults::ComponentFault;
use arrayvec::ArrayVec;
use word::Service;

const FIRST_PID: u16 = 32;

const LAST_PID: u16 = 8190;

impl Components {
    /// A table with no component.
    pub fn new() -> Components
        ensures rows { components_of result ≡ [] }
        ensures joined { (k : ℕ) → joined result k ≡ None }
        ensures count { count result ≡ 0 }
    {
        Components {
            rows: ArrayVec::new(),
        }
    }

    /// How many components there are.
    pub fn len(&self) -> usize
        ensures count { result ≡ count self.now }
        ensures few { result ≤ 64 }
    {
        self.rows.len()
    }

    /// The service that the PID is joined to.
    pub fn service_of(&self, pid: u16) -> Option<Service>
        ensures { option_map (λ s. s.number) result ≡ joined self.now pid }
    {
        self.rows
            .iter()
            .find(|component| component.pid == pid)
            .map(|component| component.service)
    }

    /// Whether a component of the PID can be added, or why not.
    fn admits(&self, pid: u16) -> Result<(), ComponentFault>
        ensures { result ≡ add_answer self.now pid }
    {
        if pid < FIRST_PID || pid > LAST_PID {
            return Err(ComponentFault::OutOfRange);
        }
        if self.service_of(pid).is_some() {
            return Err(ComponentFault::Joined);
        }
        if self.rows.is_full() {
            return Err(ComponentFault::Full);
        }
        Ok(())
    }

    /// Adds a component at the end, or says why not and changes nothing.
    pub fn add(&mut self, pid: u16, service: Service) -> Result<(), ComponentFault>
        ensures answer { result ≡ add_answer self.old pid }
        ensures rows { components_of self.new ≡ components_of self.old ++ (if is_ok result then (record { pid = pid; service = service } ∷ []) else []) }
        ensures joined { (k : ℕ) → joined self.new k ≡ (if is_ok result && k == pid then Some service.number else joined self.old k) }
        ensures count { count self.new ≡ count self.old + (if is_ok result then 1 else 0) }
    {
        self.admits(pid)?;
        self.rows.push(Component { pid, service });
        Ok(())
    }

    /// Takes the component of a PID out, and says whether there was one. The others keep their order.
    pub fn remove(&mut self, pid: u16) -> bool
        ensures there { result ≡ is_some (joined self.old pid) }
        ensures rows { components_of self.new ≡ other_pids pid (components_of self.old) }
        ensures joined { (k : ℕ) → joined self.new k ≡ (if nat_eq k pid then None else joined self.old k) }
        ensures count { count self.new ≡ count self.old - (if result then 1 else 0) }
    {
        let there = self.service_of(pid).is_some();
        self.rows.retain(|component| component.pid != pid);
        there
    }

    /// Takes all components of a service out. The others keep their order.
    pub fn remove_service(&mut self, service: Service)
        ensures rows { components_of self.new ≡ other_services service.number (components_of self.old) }
        ensures joined { (k : ℕ) → joined self.new k ≡ without_service service.number (joined self.old k) }
        ensures count { count self.new ≡ length (other_services service.number (components_of self.old)) }
    {
        self.rows.retain(|component| component.service != service);
    }
}
