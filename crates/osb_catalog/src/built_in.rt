//! The text of the built-in settings.

/// The settings that serve where no file is named: one service with a synchronous and an
/// asynchronous plan.
pub const BUILT_IN: &str = "{\"platform\":{\"user\":\"platform\",\"password\":\"secret\"},
 \"backend\":{\"user\":\"backend\",\"password\":\"worker\"},
 \"catalog\":{\"services\":[{\"name\":\"store\",\"id\":\"svc\",\"description\":\"Key store\",
  \"bindable\":true,\"bindings_retrievable\":true,\"plan_updateable\":true,\"plans\":[
   {\"name\":\"small\",\"id\":\"p-sync\",\"description\":\"At once\"},
   {\"name\":\"large\",\"id\":\"p-async\",\"description\":\"Later\",\"maintenance_info\":{\"version\":\"1.2.0\"}}]}]},
 \"modes\":{\"p-sync\":{\"credentials\":{\"uri\":\"mem:1\"}},
  \"p-async\":{\"instances\":\"asynchronous\",\"bindings\":\"asynchronous\"}}}";
